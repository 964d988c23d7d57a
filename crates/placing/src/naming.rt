// Labels that wait: all of them are bound at once.
ghost use Rattle.std.specs.Prelude.{◌≡◌, length};
ghost use Rattle.codes.specs.Limits.{most_labels};
ghost use Rattle.sources.specs.Placing.{bound_all, bound_by};
ghost use Rattle.sources.specs.declared.Gives.TheVariants.{Start};
ghost use Rattle.placing.specs.Inner.State.{Fair, BindsFine, Binds};

use super::Counters;
use labels::bound::fill;
use sources::Gives;

fn bind(values: &mut [u16], c: Counters, v: u16) -> Counters
    requires { Fair c × (length values.old ≡ most_labels) }
    ensures { Binds (bound_all v) c values.old result values.new }
{
    let at = c.at;
    let labels = c.bound + c.waiting;
    fill(values, c.bound, labels, v);
    Counters {
        at,
        bound: labels,
        waiting: 0,
    }
}

// The waiting labels get the current address.
pub fn bind_here(values: &mut [u16], c: Counters) -> Counters
    requires { Fair c × (length values.old ≡ most_labels) × BindsFine c Start }
    ensures { Binds (bound_all c.at.0) c values.old result values.new }
{
    let at = c.at.0;
    if c.waiting == 0 {
        return c;
    }
    bind(values, c, at as u16)
}

pub(crate) fn bind_by(values: &mut [u16], c: Counters, g: Gives) -> Counters
    requires { Fair c × (length values.old ≡ most_labels) × BindsFine c g }
    ensures { Binds (bound_by g) c values.old result values.new }
{
    match g {
        Gives::Waits => c,
        Gives::Number(v) => bind(values, c, v),
        Gives::Start => bind_here(values, c),
    }
}
