// The numbers of profiles: 0 for A and 1 for B.
ghost use Rattle.std.specs.Prelude.{◌≡◌, ◌≤◌, MatchOption};
ghost use Rattle.dob_foreign.specs.Profiles.{profile_number};

use dob_pieces::Profile;

/// The number of a profile.
pub fn profile_number(profile: Profile) -> u32
    ensures { result ≡ profile_number profile }
{
    u32::from(profile.number())
}

/// The profile of that number.
pub fn profile_of(number: u32) -> Option<Profile>
    ensures { MatchOption result (2 ≤ number) (λ profile. profile_number profile ≡ number) }
{
    match u8::try_from(number) {
        Ok(number) => Profile::of_number(number),
        Err(_) => None,
    }
}
