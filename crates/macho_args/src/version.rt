//! Versions such as `14.0` or `15.16.17`, as `LC_BUILD_VERSION` of `mach-o/loader.h` packs them.

ghost use Rattle.std.specs.Prelude.{◌≡◌, ◌∷◌, [], MatchResult, MatchOption, Some, None};
ghost use Rattle.std.specs.Option.{option_copied};
ghost use Rattle.macho_args.specs.Version.{version_number, version_of, packed};
ghost use Rattle.macho_args.specs.steps.Version.{dotted_parts};

use crate::numbers::number_up_to;

/// The greatest major part, which has 16 bits.
const MAX_MAJOR: u32 = 65_535;

/// The greatest minor part and patch, which have 8 bits each.
const MAX_MINOR: u32 = 255;

/// A version of up to three parts, packed as `xxxx.yy.zz`: the major part in the high 16 bits, then
/// 8 bits each of the minor part and the patch.
#[derive(Clone, Copy, PartialEq, Eq)]
pub struct SemanticVersion(u32);

/// The text isn't a version.
#[derive(Clone, Copy)]
pub struct BadVersion;

impl SemanticVersion {
    /// The version that a text writes: one to three parts of decimal digits, joined by dots. Missing
    /// parts are 0. The major part is at most 65,535, the others at most 255.
    #[tactic(auto, unfolding(crate::specs::Version::version_of))]
    pub fn try_from(text: &str) -> Result<SemanticVersion, BadVersion>
        ensures { MatchResult result
            (λ version. version_of text.now ≡ Some (version_number version))
            (λ _. version_of text.now ≡ None) }
    {
        let (major, rest) = first_part(text);
        let Some(rest) = rest else {
            return pack(major, "0", "0");
        };
        let (minor, rest) = first_part(rest);
        let Some(rest) = rest else {
            return pack(major, minor, "0");
        };
        let (patch, rest) = first_part(rest);
        match rest {
            None => pack(major, minor, patch),
            Some(_fourth) => Err(BadVersion),
        }
    }

    /// The packed number.
    pub fn get(&self) -> u32
        ensures { result ≡ version_number self.now }
    {
        self.0
    }
}

// The text before the first dot, and the text behind it, if there is a dot.
fn first_part(text: &str) -> (&str, Option<&str>)
    ensures { MatchOption (option_copied result.1)
        (dotted_parts text.now ≡ result.0.now ∷ [])
        (λ rest. dotted_parts text.now ≡ result.0.now ∷ dotted_parts rest) }
{
    match text.split_once('.') {
        Some((first, rest)) => (first, Some(rest)),
        None => (text, None),
    }
}

// Three parts in one number.
fn pack(major: &str, minor: &str, patch: &str) -> Result<SemanticVersion, BadVersion>
    ensures { MatchResult result
        (λ version. packed major.now minor.now patch.now ≡ Some (version_number version))
        (λ _. packed major.now minor.now patch.now ≡ None) }
{
    let major = number_up_to(MAX_MAJOR, major).ok_or(BadVersion)?;
    let minor = number_up_to(MAX_MINOR, minor).ok_or(BadVersion)?;
    let patch = number_up_to(MAX_MINOR, patch).ok_or(BadVersion)?;
    Ok(SemanticVersion(major * 65_536 + minor * 256 + patch))
}
