// Laws of the definitions, each the contract of a function with an empty body.
ghost use Rattle.std.specs.Prelude.{◌≤◌, ◌+◌, ◌-◌, ℕ, Option, length};
ghost use Rattle.dns_name.specs.Names.{Name};
ghost use Rattle.zone_model.specs.Version.{RecordSet, Version};
ghost use Rattle.zone_versions.specs.Trees.{with_set, built};

/// An edit builds at most as many nodes as its owner has labels below the apex, and one more.
pub fn few_nodes_are_built()
    ensures { (v : Version) (owner : Name) (rtype : ℕ) (s : Option RecordSet)
        → built v (with_set v owner rtype s) owner rtype ≤ length owner - length v.apex + 1 }
{}
