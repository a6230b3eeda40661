//! The release team's sender.
ghost use Rattle.std.specs.Prelude.{◌≡◌};
ghost use Rattle.office_mail_setup.specs.declared.setup.Role.TheVariants.{Release as TheRelease};
ghost use Rattle.office_mail.specs.Setup.{place_of_role, same_role};

use office_mail::{Role, Setup};

/// Whether the release team has this role.
fn is_release(role: Role) -> bool
    ensures { result ≡ same_role TheRelease role }
{
    matches!(role, Role::Release)
}

/// The place of the release team's sender.
pub fn release_place(setup: &Setup) -> u32
    ensures { result ≡ place_of_role TheRelease setup.now.senders }
{
    let senders = setup.senders();
    let mut place = 0;
    for sender in senders {
        if is_release(sender.role) {
            return place;
        }
        place += 1;
    }
    place
}
