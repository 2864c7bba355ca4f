// Where a body stands, and what a function is called: what needs no table.

#![tactic(auto)]

ghost use Rattle.std.specs.Prelude.{◌≡◌, ◌+◌, ◌<◌, ◌≤◌, length};
ghost use Rattle.law_runs.specs.Steps.{bind_naming_at, head_naming_at};
ghost use Rattle.state.specs.Walks.{naming_of};
ghost use Rattle.step_place.specs.Answers.{Deeper, InObject};

use bytes_read::{mark_at, number_at};
use bytes_records::{BF, offsets};
use state::{Naming, Place};
use value_local::LocalId;

// One deeper, for a body.
pub fn deeper(here: Place) -> Place
    requires { here.depth < 4294967295 }
    ensures { Deeper result here }
{
    Place {
        depth: here.depth + 1,
        ..here
    }
}

// In an object whose `this` has this id.
pub fn in_object(here: Place, id: u32) -> Place
    ensures { InObject result here id }
{
    let this_local = LocalId(id);
    let dollar_alias = if here.in_object {
        here.dollar_alias
    } else {
        this_local
    };
    Place {
        in_object: true,
        this_local,
        dollar_alias,
        ..here
    }
}

// What the function of the bind at an offset is called.
pub fn bind_naming(tree: &[u8], at: usize) -> Naming
    requires { at + 10 ≤ length tree.now }
    ensures { naming_of result ≡ bind_naming_at tree.now at }
{
    if mark_at(tree, at) != BF {
        return Naming::Unnamed;
    }
    let name = number_at(tree, at + offsets::BIND_NAME);
    let span = number_at(tree, at + offsets::BIND_SPAN);
    Naming::AsBind(name, span)
}

// What the function of the field is called whose head stands at an offset.
pub fn head_naming(tree: &[u8], at: usize) -> Naming
    requires { at + 26 ≤ length tree.now }
    ensures { naming_of result ≡ head_naming_at tree.now at }
{
    if number_at(tree, at + offsets::FH_METHOD) == 0 {
        return Naming::Unnamed;
    }
    let span = number_at(tree, at + offsets::FH_SPAN);
    if number_at(tree, at + offsets::FH_KIND) == 0 {
        let name = number_at(tree, at + offsets::FH_NAME);
        return Naming::AsMethod(name, span);
    }
    Naming::AsComputedMethod(span)
}
