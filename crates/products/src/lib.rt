// Whether two products of whole numbers are the same, where each can have 127 bits.
#![tactic(auto)]

ghost use Rattle.std.specs.Prelude.{◌≡◌, ◌*ℤ◌};
ghost use Rattle.laws.specs.Numbers.{equal};

// a × b = c × d.
pub fn same_products(a: i64, b: i64, c: i64, d: i64) -> bool
    ensures { result ≡ equal (a *ℤ b) (c *ℤ d) }
{
    i128::from(a) * i128::from(b) == i128::from(c) * i128::from(d)
}
