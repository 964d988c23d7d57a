// The values of labels, in the labels' order.
ghost use Rattle.std.specs.Prelude.{◌≡◌, ◌++◌, ◌-◌, ◌≤◌, length, take, replicate};

// Every label from a place on, up to another, gets the value.
pub fn fill(values: &mut [u16], from: usize, to: usize, v: u16)
    requires { (from ≤ to) × (to ≤ length values.old) }
    ensures { take to values.new ≡ take from values.old ++ replicate (to - from) v }
{
    values[from..to].fill(v);
}
