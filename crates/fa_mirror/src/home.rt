//! The homes of a page.
ghost use Rattle.std.specs.Prelude.{◌≡◌, ◌≤◌, [], ◌∷◌, map};
ghost use Rattle.fa_machine.specs.Placement.{home_1, home_2, home_3};

use fa_types::{Die, Page};

/// The homes of a page on the dies in use, of which there are at most 256. The first is the page's number modulo the dies.
/// The second is another die: it lies one die behind the first, and one more for each time that the page's number goes round
/// the dies, until it would be the first again. The third is the die behind the second, or the one behind that where it is
/// the first. On two dies the third is the second again.
pub fn homes(page: Page, dies_in_use: u32) -> [Die; 3]
    requires least { 2 ≤ dies_in_use }
    requires most { dies_in_use ≤ 256 }
    ensures { map (λ die. die.0) result ≡ home_1 dies_in_use page.0 ∷ home_2 dies_in_use page.0 ∷ home_3 dies_in_use page.0 ∷ [] }
{
    let dies = u64::from(dies_in_use);
    let first = page.0 % dies;
    let second = (first + 1 + page.0 / dies % (dies - 1)) % dies;
    let next = (second + 1) % dies;
    let third = if next == first {
        (next + 1) % dies
    } else {
        next
    };
    [Die(first as u8), Die(second as u8), Die(third as u8)]
}
