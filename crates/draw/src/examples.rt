// The worked examples, proved of the definitions.
ghost use Rattle.std.specs.Prelude.{◌≡◌, length};
ghost use Rattle.draw.specs.Examples.{table, Worked};

// How many worked examples there are; all of them hold. The number is a literal, since the table stands in the definitions alone.
pub fn worked_examples() -> usize
    ensures count { result ≡ length table }
    ensures hold { Worked }
{
    14
}
