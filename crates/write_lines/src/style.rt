// What the lines look like, whatever the table.
ghost use Rattle.std.specs.Prelude.{◌≤◌};

// The model's undefined byte and mark, and a width that may be asked for.
#[derive(Clone, Copy)]
pub struct LineStyle {
    pub undefined: u8,
    pub mark: u8,
    pub width: usize,
    ghost wide: { (16 ≤ width) × (width ≤ 65535) },
}
