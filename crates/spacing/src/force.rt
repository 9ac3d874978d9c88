// Squares of a force in N and of its components.
ghost use Rattle.std.specs.Prelude.{◌≡◌};
ghost use Rattle.spacing.specs.Spacing.{square, squared_force};

// The squared size of a component.
pub(crate) fn square(f: i32) -> u64
    ensures { result ≡ square f }
{
    let size = f.unsigned_abs() as u64;
    size * size
}

// fx² + fy².
pub fn squared_force(fx: i32, fy: i32) -> u64
    ensures { result ≡ squared_force fx fy }
{
    square(fx) + square(fy)
}
