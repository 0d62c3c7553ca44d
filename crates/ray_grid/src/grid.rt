ghost use Rattle.std.specs.Prelude.{◌≡◌, ◌<◌, ◌≤◌, IfSome, IfNone};
ghost use Rattle.ray_grid.specs.Grid.{IsGrid, point_count};

/// The most points that an attempt may have.
const MOST_POINTS: u64 = 65536;

/// A grid of degrees: in how many variables, the greatest total degree, and the greatest degree in each variable.
#[derive(Clone, Copy, PartialEq, Eq, Debug)]
pub struct Grid {
    pub variables: u32,
    pub total: u32,
    pub each: [u32; 8],
}

/// How many points an attempt over the grid has: three more than the total degree, times one more than the degree in
/// each variable past the first. None where there are more than 65536.
pub fn size(grid: &Grid) -> Option<u64>
    requires { IsGrid grid.now }
    ensures count { IfSome result (λ count. count ≡ point_count grid.now) }
    ensures few { IfSome result (λ count. count ≤ 65536) }
    ensures many { IfNone result (65536 < point_count grid.now) }
{
    let mut count = grid.total as u64 + 3;
    for degree in &grid.each[1..grid.variables as usize] {
        count *= *degree as u64 + 1;
        if count > MOST_POINTS {
            return None;
        }
    }
    Some(count)
}
