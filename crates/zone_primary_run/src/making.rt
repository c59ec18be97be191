//! The primary of a script.
ghost use Rattle.std.specs.Prelude.{◌≡◌, IfOk, OnOk};
ghost use Rattle.zone_primary_run.specs.ScriptPrimaries.{AreTold, primary_with, provider_of, pushed_all, versions_of};

use dns_name::Labelled;
use std::alloc::{AllocError, Global};
use tsig_port::Key;
use xfr_providers::HistoryProvider;
use xfr_server::{PrimaryStack, XfrMiddlewareSvc};
use xfr_signing::TsigMiddlewareSvc;
use zone_reads::ReadZone;
use zone_script::commits::Commits;
use zone_serving::{OneVersion, ZoneQueries};

/// The primary of a zone: it checks and signs, transfers the zone to those who sign with its key, and answers questions for its names from the version
/// that it offers.
pub type Primary = PrimaryStack<ZoneQueries<OneVersion>, HistoryProvider, Key>;

/// The primary that opened with a version, committed these after it, and grants them to a key.
pub fn primary_of(
    alloc: Global,
    opening: ReadZone,
    commits: Commits,
    key: &Key,
) -> Result<Primary, AllocError>
    requires { AreTold opening.version commits }
    ensures { IfOk result (λ p. p ≡ primary_with (provider_of opening.version (versions_of commits) key.now) key.now) }
{
    let mut provider = HistoryProvider::new(alloc, opening.clone()?);
    provider.grant(key.name().duplicate(), key.algorithm())?;
    let last = push_all(&mut provider, opening, commits)?;
    let queries = ZoneQueries::new(OneVersion::new(last));
    let transfers = XfrMiddlewareSvc::new(queries, provider);
    Ok(TsigMiddlewareSvc::new(transfers, key.duplicate()))
}

/// Pushes commits to a provider, each with its difference, and gives the version that it keeps then.
fn push_all(
    provider: &mut HistoryProvider,
    opening: ReadZone,
    commits: Commits,
) -> Result<ReadZone, AllocError>
    requires told { AreTold provider.old.kept commits }
    requires opening { opening.version ≡ provider.old.kept }
    ensures pushed { OnOk result (provider.new ≡ pushed_all provider.old (versions_of commits)) }
    ensures last { IfOk result (λ z. z.version ≡ provider.new.kept) }
{
    let mut last = opening;
    for (handle, difference) in commits.into_entries() {
        last = handle.clone()?;
        provider.push(handle, difference)?;
    }
    Ok(last)
}
