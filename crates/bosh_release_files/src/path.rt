//! The parts of a path.
ghost use Rattle.std.specs.Prelude.{◌≡◌};
ghost use Rattle.std.specs.Option.{option_map};
ghost use Rattle.bosh_release_files.specs.Files.{after, first_folder};
ghost use Rattle.bosh_release_files.specs.Pattern.{folder_of};

const SLASH: u8 = b'/';

/// What stands after a front of a path.
pub(crate) fn after<'a>(front: &[u8], path: &'a [u8]) -> Option<&'a [u8]>
    ensures { option_map (λ rest. rest.now) result ≡ after front.now path.now }
{
    path.strip_prefix(front)
}

/// The first folder of a path.
pub(crate) fn first_folder(path: &[u8]) -> Option<&[u8]>
    ensures { option_map (λ name. name.now) result ≡ first_folder path.now }
{
    for (place, byte) in path.iter().enumerate() {
        if *byte == SLASH {
            return Some(&path[..place]);
        }
    }
    None
}

/// The folder of a path.
pub(crate) fn folder_of(path: &[u8]) -> Option<&[u8]>
    ensures { option_map (λ name. name.now) result ≡ folder_of path.now }
{
    for place in (0..path.len()).rev() {
        if path[place] == SLASH {
            return Some(&path[..place]);
        }
    }
    None
}
