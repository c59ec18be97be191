// What a signer makes (RFC 8945, 5.1 and 5.3).
ghost use Rattle.std.specs.Prelude.{◌≡◌, ◌<◌, ℕ, List, [], length};
ghost use Rattle.tsig_port.specs.HmacState.{HoldsHmac};
ghost use Rattle.tsig_port.specs.Tsig.{blank_tsig, signing_mac, with_len};
ghost use Rattle.tsig_port.specs.Signers.{first_tsig, later_tsig};

use crate::signature::{update_counted, update_timers, update_variables};
use dns_wire::AdditionalBuilder;
use tsig_keys::{Hmac, Key, Mac};
use tsig_rdata::{SigningTsig, Time48, Tsig, TsigRecord};

/// The fudge that a signer gives where none is asked for, in seconds (RFC 8945, 10).
pub const DEFAULT_FUDGE: u16 = 300;

/// The TSIG of a message of that id before it has its MAC.
pub fn blank(key: &Key, id: u16, now: Time48, fudge: u16) -> SigningTsig
    ensures { result ≡ blank_tsig key.now now fudge id 0 [] }
{
    Tsig::signing(
        key.algorithm().to_name(),
        now,
        fudge,
        Mac::from_octets(&[]),
        id,
        0,
        Mac::from_octets(&[]),
    )
}

/// The MAC that the key sends of the octets taken.
pub fn sent_mac(key: &Key, context: Hmac) -> Mac
    ensures { (input : List ℕ) → HoldsHmac context key.now.algorithm key.now.secret input → result ≡ signing_mac key.now input }
{
    context.finish().truncated(key.signing_len())
}

/// The TSIG of a message, where `context` has taken what is digested before it: with the MAC of this, the message and the TSIG
/// variables (RFC 8945, 5.1 and 5.3).
pub fn sign_first(
    key: &Key,
    context: Hmac,
    message: &AdditionalBuilder,
    now: Time48,
    fudge: u16,
) -> SigningTsig
    ensures { (before : List ℕ) → HoldsHmac context key.now.algorithm key.now.secret before → result ≡ first_tsig key.now before message.now.octets now fudge }
{
    let tsig = blank(key, message.header().id, now, fudge);
    let mut context = context;
    context.update(message.as_slice());
    update_variables(&mut context, key.name(), &tsig);
    tsig.with_mac(sent_mac(key, context))
}

/// The same of a later message, which has the timers in place of the variables (RFC 8945, 5.3.1).
pub fn sign_later(
    key: &Key,
    context: Hmac,
    message: &AdditionalBuilder,
    now: Time48,
    fudge: u16,
) -> SigningTsig
    ensures { (before : List ℕ) → HoldsHmac context key.now.algorithm key.now.secret before → result ≡ later_tsig key.now before message.now.octets now fudge }
{
    let tsig = blank(key, message.header().id, now, fudge);
    let mut context = context;
    context.update(message.as_slice());
    update_timers(&mut context, &tsig);
    tsig.with_mac(sent_mac(key, context))
}

/// A MAC by the key that has taken this MAC after its length, as the MAC of the next message begins.
pub fn chained(key: &Key, mac: &[u8]) -> Hmac
    requires { length mac.now < 65536 }
    ensures { HoldsHmac result key.now.algorithm key.now.secret (with_len mac.now) }
{
    let mut context = key.hmac();
    update_counted(&mut context, mac);
    context
}

/// The record of a TSIG that the key signs with.
pub fn record_of(key: &Key, tsig: SigningTsig) -> TsigRecord
    ensures owner { result.owner ≡ key.now.name }
    ensures tsig { result.tsig ≡ tsig }
{
    TsigRecord::new(key.name().duplicate(), tsig)
}
