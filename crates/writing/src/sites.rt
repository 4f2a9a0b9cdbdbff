// A site that a record has no bytes for: the paper's number 22.
ghost use Rattle.std.specs.Prelude.{◌≡◌, ◌≤◌};
ghost use Rattle.paper.specs.Limits.{limits};
ghost use Rattle.records.specs.Inner.{Below};
ghost use Rattle.writing.specs.Sites.{lowest_sited, lost_site};

use records::Tree;

// The lowest event that has a site.
pub fn first_site(t: Tree) -> Option<usize>
    requires { t.event_count ≤ limits.events }
    ensures { (result ≡ lowest_sited t.event_count 0 t.events) × Below t.event_count result }
{
    for i in 0..t.event_count {
        if t.events[i].site != 0 {
            return Some(i);
        }
    }
    None
}

// The lowest event that has a site, in a tree whose records have none.
pub fn lost(t: Tree) -> Option<usize>
    requires { t.event_count ≤ limits.events }
    ensures { (result ≡ lost_site t) × Below t.event_count result }
{
    if t.sited { None } else { first_site(t) }
}
