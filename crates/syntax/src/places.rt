// Where a number first stands in a list of numbers: a node among the nodes, or among those of the choices.
// Nothing here knows what the numbers mean.
ghost use Rattle.std.specs.Prelude.{◌≤◌, length};
ghost use Rattle.syntax.specs.Code.Reading.{Sought};

// The first index below n that has the number, or n.
pub fn seek(list: &[u32], n: usize, number: u32) -> usize
    requires { n ≤ length list.now }
    ensures { Sought list.now n number result }
{
    list[..n].iter().position(|v| *v == number).unwrap_or(n)
}
