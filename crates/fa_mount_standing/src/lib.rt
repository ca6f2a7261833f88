//! What is mounted of a die, by how it stands.
#![tactic(auto)]

ghost use Rattle.std.specs.Prelude.{◌≡◌};
ghost use Rattle.fa_mount_standing.specs.Standing.{found_where_live};

use fa_mount_headers::Standing;

/// What was found on a die, where it is live and was read. What lies on any other die does not count.
pub fn found_on_live<T: Drop, E: Drop>(standing: Standing, found: Option<Result<T, E>>) -> Option<T>
    ensures { result ≡ found_where_live standing found }
{
    match (standing, found) {
        (Standing::Live(_), Some(Ok(found))) => Some(found),
        _ => None,
    }
}
