// Laws of the program's scripts, each the contract of a function with an empty body.
ghost use Rattle.std.specs.Prelude.{◌≡◌, ℕ, List, Ok};
ghost use Rattle.tsig_port.specs.Tsig.{TsigKey};
ghost use Rattle.zone_model.specs.TransferText.{Mode};
ghost use Rattle.std.specs.List.{AllByRecursion};
ghost use Rattle.zone_script.specs.Script.{Script, script_of, primary_history, secondary_version};
ghost use Rattle.zone_script.specs.ScriptReaders.{wire_readers};
ghost use Rattle.zone_sync.specs.Serving.{request_at};
ghost use Rattle.zone_sync.specs.Fitting.{Fits};
ghost use Rattle.zone_sync.specs.Forms.{IsWritable};
ghost use Rattle.zone_sync.specs.Delivery.{IsGranted};
ghost use Rattle.zone_sync.specs.Primaries.{refuser};
ghost use Rattle.zone_sync.specs.Reported.{FitsLink, asking_in, offer_in, provider_in};

use crate::laws::history_primaries_grant;
use tsig_port::Key;
use xfr_server::{HistoryProvider, PrimaryStack, RefuseSvc, Service};

/// The records of every script that octets spell have wire forms, and so have those of each version that it makes.
pub fn scripts_have_forms()
    ensures { (text : List ℕ) (script : Script TsigKey) → script_of wire_readers text ≡ Ok script
        → AllByRecursion IsWritable (primary_history script) × IsWritable (secondary_version script) }
{}

/// Of every script that octets spell it holds that both sides have one key, with lengths that its algorithm allows, that the
/// zones are of one apex and class, and that what is sent has wire forms. So what `FitsLink` asks is all that is left of the premises of success ..
pub fn scripts_fit()
    ensures { (mode : Mode) (text : List ℕ) (script : Script TsigKey) (key : TsigKey) (longest : ℕ)
        → script_of wire_readers text ≡ Ok script → FitsLink mode script key longest
        → Fits (asking_in mode script key) key script.at_primary (offer_in mode script key) }
{}

/// .. and the program's primary, which keeps the versions of the script and grants the last of them to its key, grants the request.
pub fn scripts_grant()
    ensures { (mode : Mode) (text : List ℕ) (script : Script TsigKey) (key : TsigKey) (longest : ℕ)
        → script_of wire_readers text ≡ Ok script → FitsLink mode script key longest
        → IsGranted
        (λ m. ⟦<PrimaryStack<RefuseSvc, HistoryProvider, Key> as Service<()>>⟧.Sends
        ((refuser, provider_in script key), key) (request_at m script.at_primary))
        (asking_in mode script key) script.at_primary longest (provider_in script key).kept }
{
    // For the proof: the law of such a primary.
    history_primaries_grant();
}
