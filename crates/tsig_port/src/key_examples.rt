// Worked examples of one key with two spellings and other lengths, proved by computation.
ghost use Rattle.std.specs.Prelude.{◌≡◌};
ghost use Rattle.tsig_port.specs.Keys.{own_key};
ghost use Rattle.tsig_port.specs.Checked.{checked};
ghost use Rattle.tsig_port.specs.ServerCheck.{verdict};
ghost use Rattle.tsig_port.specs.ServerCheck.Verdict.{Accepted, Refused};
ghost use Rattle.tsig_port.specs.OneKey.{AreOneKey};
ghost use Rattle.tsig_port.specs.OneKeyRows.{server_key, client_key, strict_key, client_request, server_replies};

/// A server's `key.` with MACs of 32 octets and a client's `KEY.` with 16 are one, where both take 16; where the client takes 32 alone they
/// still are, but a server that signs with 16 is none for that client, nor a server that takes 32 alone for one that signs with 16.
pub fn one_key_row()
    ensures one { AreOneKey client_key server_key }
    ensures strict { AreOneKey strict_key server_key }
    ensures client_refuses { AreOneKey strict_key (record server_key { signing_len = 16 }) → ⊥ }
    ensures server_refuses { AreOneKey client_key (record server_key { min_mac_len = 32 }) → ⊥ }
{}

/// The server accepts that client's request by its own key, and the client takes the server's answers.
pub fn one_key_exchange_row()
    ensures accepted { verdict (own_key server_key) 1300 client_request ≡ Accepted server_key }
    ensures taken { checked client_key client_request 1300 server_replies ≡ server_replies }
    ensures strict { verdict (own_key (record server_key { min_mac_len = 32 })) 1300 client_request ≡ Refused 22 }
{}
