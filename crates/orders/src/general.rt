// The general registers: two sets of eight in one array.
ghost use Rattle.std.specs.Prelude.{◌≡◌};
ghost use Rattle.orders.specs.General.{general_cell, general_at};

// Where register r of set s stands.
pub fn general_cell(s: u32, r: u32) -> usize
    ensures { result ≡ general_cell s r }
{
    s as usize * 8 + r as usize
}

// Register r of set s, or 0 where there is no such set or register.
pub fn general_at(general: &[u32; 16], s: u32, r: u32) -> u32
    ensures { result ≡ general_at general.now s r }
{
    if 1 < s {
        return 0;
    }
    if 7 < r {
        return 0;
    }
    general[general_cell(s, r)]
}
