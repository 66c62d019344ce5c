// The version of the command line.
ghost use Rattle.std.specs.Prelude.{◌≡◌};
ghost use Rattle.command_words.specs.Version.{version_in};

use report_frame::Version;

/// The version of a text, which is its number: `1` or `2`.
pub fn version_in(text: &str) -> Option<Version>
    ensures { result ≡ version_in text.now }
{
    match text {
        "1" => Some(Version::One),
        "2" => Some(Version::Two),
        _ => None,
    }
}
