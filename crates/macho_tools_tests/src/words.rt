//! Words of ld64 as words of the linker.

use ld64_words::{WordFault, core_words};
use std::alloc::{AllocError, Global};
use std::test::Fail;

/// The words that a command line gives, with a space behind each; where it is refused, the number of the word.
fn given(alloc: Global, line: &[&str]) -> Result<String, AllocError> {
    let mut words = Vec::new(alloc);
    for word in line {
        words.push(String::from_str(alloc, word)?)?;
    }
    let mut text = String::new(alloc);
    match core_words(alloc, &words) {
        Ok(core) => {
            for word in &core.words {
                text.push_str(word.as_str())?;
                text.push_str(" ")?;
            }
        }
        Err(WordFault::RefusedWord { .. }) => text.push_str("refused")?,
        Err(_) => text.push_str("another fault")?,
    }
    Ok(text)
}

#[test]
fn words_of_a_compiler(rt: HostRuntime) -> Result<(), Fail> {
    let line = [
        "-demangle",
        "-arch",
        "arm64",
        "-macosx_version_min",
        "14.0",
        "-dylib_install_name",
        "/lib/a.dylib",
        "a.o",
        "-lc",
    ];
    let text = given(rt.alloc(), &line)?;
    assert_eq!(rt;
        text.as_str(),
        "-arch arm64 -platform_version macos 14.0 14.0 -install_name /lib/a.dylib a.o -lc "
    );
    Ok(())
}

#[test]
fn a_bundle_is_refused(rt: HostRuntime) -> Result<(), Fail> {
    let text = given(rt.alloc(), &["-bundle", "a.o"])?;
    assert_eq!(rt; text.as_str(), "refused");
    Ok(())
}
