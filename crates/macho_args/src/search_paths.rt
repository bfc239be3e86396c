//! The rule on paths, which comes after the words.

ghost use Rattle.std.specs.Prelude.{◌≡◌, ◌++◌, IfOk, OnOk, Some, map};
ghost use Rattle.std.specs.List.{AllZip};
ghost use Rattle.std.specs.String.{string_bytes};
ghost use Rattle.macho_args.specs.Effects.{joined as joined_path};
ghost use Rattle.macho_args.specs.steps.KeptRoot.{FollowsRoot, IsBelow, IsRootFor, SettlesRoot, settled};
ghost use Rattle.macho_args.specs.SearchPaths.{IsMoved, standard_frameworks};

use crate::fields::MachOArgs;
use crate::outside::Paths;
use crate::words::{after_prefix, ends_with};
use std::alloc::{AllocError, Global};

/// Where libraries are, below a root.
const LIBRARIES: &str = "usr/lib";

/// Where frameworks are, below a root.
const FRAMEWORKS: &str = "Library/Frameworks";

/// Where the system's frameworks are, below a root.
const SYSTEM_FRAMEWORKS: &str = "System/Library/Frameworks";

/// What stands between the parts of a path.
const SEPARATOR: &str = "/";

impl MachOArgs {
    ghost use Rattle.macho_args.specs.Settings.{settings_of};

    /// Takes the canonical path of the root that was given, and puts its library path first.
    pub(crate) fn settle_root<D: Paths>(
        &mut self,
        alloc: Global,
        paths: &mut D,
    ) -> Result<(), AllocError>
        ensures done { OnOk result (SettlesRoot (D.state paths.old).canonical_paths (settings_of self.old).sysroot
            (settings_of self.old) (settings_of self.new)) }
        ensures outside { D.state paths.new ≡ D.state paths.old }
    {
        let Some(path) = self.sysroot.take() else {
            return Ok(());
        };
        let root = root_for(alloc, path.as_str(), paths)?;
        self.set_root(alloc, root)
    }

    // Sets the root, with its library path.
    fn set_root(&mut self, alloc: Global, root: String) -> Result<(), AllocError>
        ensures { OnOk result (settings_of self.new ≡ settled (string_bytes root) (settings_of self.old)) }
    {
        let libraries = joined(alloc, root.as_str(), LIBRARIES)?;
        self.lib_search_path.insert(0, libraries)?;
        self.sysroot = Some(root);
        Ok(())
    }

    /// Puts the framework paths below the root, and adds the standard ones.
    pub(crate) fn move_frameworks<D: Paths>(
        &mut self,
        alloc: Global,
        paths: &mut D,
    ) -> Result<(), AllocError>
        ensures done { OnOk result (FollowsRoot (D.state paths.old).directories (settings_of self.old).sysroot
            (settings_of self.old) (settings_of self.new)) }
        ensures outside { D.state paths.new ≡ D.state paths.old }
    {
        match self.sysroot.take() {
            Some(root) => self.move_below(alloc, root, paths),
            None => self.add_standard_frameworks(alloc, SEPARATOR),
        }
    }

    // The same below this root, which becomes the root again.
    fn move_below<D: Paths>(
        &mut self,
        alloc: Global,
        root: String,
        paths: &mut D,
    ) -> Result<(), AllocError>
        ensures done { OnOk result (IsBelow (D.state paths.old).directories (string_bytes root)
            (record (settings_of self.old) { sysroot = Some (string_bytes root) }) (settings_of self.new)) }
        ensures outside { D.state paths.new ≡ D.state paths.old }
    {
        let old = &self.framework_search_path;
        let frameworks = moved_paths(alloc, root.as_str(), old, paths)?;
        self.framework_search_path = frameworks;
        self.add_standard_frameworks(alloc, root.as_str())?;
        self.sysroot = Some(root);
        Ok(())
    }

    // Adds the standard framework paths below a root.
    fn add_standard_frameworks(&mut self, alloc: Global, root: &str) -> Result<(), AllocError>
        ensures { OnOk result (settings_of self.new ≡ record (settings_of self.old) {
          framework_search_path = (settings_of self.old).framework_search_path ++ standard_frameworks root.now;
        }) }
    {
        let frameworks = joined(alloc, root, FRAMEWORKS)?;
        let system = joined(alloc, root, SYSTEM_FRAMEWORKS)?;
        self.framework_search_path.push(frameworks)?;
        self.framework_search_path.push(system)?;
        Ok(())
    }
}

// The root for a path that was given: its canonical path, else the path itself.
fn root_for<D: Paths>(alloc: Global, path: &str, paths: &mut D) -> Result<String, AllocError>
    ensures root { IfOk result (λ root. IsRootFor (D.state paths.old).canonical_paths path.now (string_bytes root)) }
    ensures outside { D.state paths.new ≡ D.state paths.old }
{
    match paths.canonical(alloc, path)? {
        Some(canonical) => Ok(canonical),
        None => String::from_str(alloc, path),
    }
}

// What becomes of framework paths: each that begins with `/` goes below the root, where that is a directory.
fn moved_paths<D: Paths>(
    alloc: Global,
    root: &str,
    old: &[String],
    paths: &mut D,
) -> Result<Vec<String>, AllocError>
    ensures each { IfOk result (λ new.
        AllZip (IsMoved (D.state paths.old).directories root.now) (map string_bytes old.now) (map string_bytes new.items)) }
    ensures outside { D.state paths.new ≡ D.state paths.old }
{
    let mut new = Vec::new(alloc);
    for path in old {
        new.push(moved_path(alloc, root, path.as_str(), paths)?)?;
    }
    Ok(new)
}

// What becomes of one framework path.
fn moved_path<D: Paths>(
    alloc: Global,
    root: &str,
    path: &str,
    paths: &mut D,
) -> Result<String, AllocError>
    ensures moved { IfOk result (λ new. IsMoved (D.state paths.old).directories root.now path.now (string_bytes new)) }
    ensures outside { D.state paths.new ≡ D.state paths.old }
{
    let Some(rest) = after_prefix(path, SEPARATOR) else {
        return String::from_str(alloc, path);
    };
    let below = joined(alloc, root, rest)?;
    if paths.is_dir(below.as_str()) {
        Ok(below)
    } else {
        String::from_str(alloc, path)
    }
}

// A path below a root.
#[tactic(auto, unfolding(crate::specs::Effects::joined))]
fn joined(alloc: Global, root: &str, path: &str) -> Result<String, AllocError>
    ensures { IfOk result (λ text. string_bytes text ≡ joined_path root.now path.now) }
{
    if ends_with(root, SEPARATOR) {
        format!(in alloc; "{root}{path}")
    } else {
        format!(in alloc; "{root}/{path}")
    }
}
