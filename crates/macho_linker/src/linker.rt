//! The linker: what is linked, gathered before the link.
ghost use Rattle.std.specs.Prelude.{◌≡◌, ◌-◌, ◌^◌, false, not, ◌<◌, ◌≤◌, length, map, All, Some, IfOk, IfErr, IfSome, OnOk, OnErr};
ghost use Rattle.std.specs.Option.{option_map};
ghost use Rattle.std.specs.List.{list_any};
ghost use Rattle.std.specs.String.{string_bytes};
ghost use Rattle.macho_args.specs.Settings.{settings_of, platform_of};
ghost use Rattle.macho_model.specs.Links.{Object, Dylib};
ghost use Rattle.macho_model.specs.Grammar.{IsObject, IsDylib};
ghost use Rattle.macho_model.specs.Faults.{bad_name, has_zero};
ghost use Rattle.macho_model.specs.LinkLaws.{with_input};
ghost use Rattle.macho_linker.specs.Held.{IsHeld};
ghost use Rattle.macho_linker.specs.Linkers.{link_of, with_export_list, TakesStub};
ghost use Rattle.macho_promise.specs.Inputs.{IsInput};
ghost use Rattle.macho_linker.specs.Owned.{input_of};
ghost use Rattle.macho_answer.specs.declared.fault.LinkError.TheVariants.{OutOfMemory};
ghost use Rattle.macho_linker.specs.Shown.{Shows, ShowsInput, ShowsBytes};
ghost use Rattle.macho_linker.specs.steps.StubRefusals.{stub_refusal, IsReadStub};
ghost use Rattle.macho_linker.specs.Refusals.{ArgsRefused, ObjectRefused, DylibRefused, StubRefused};

use crate::owned::{ObjectBytes, OwnedInput, StubText};
use crate::paths::{has_no_file_name, has_nul};
use macho_answer::{InputFault, LinkError};
use macho_args::{MachOArgs, PlatformVersion};
use macho_object::File;
use macho_stub::{StubFault, parse_defined_library};
use std::alloc::{AllocError, Global};
use std::marker::Model;

/// The arguments of a link, its inputs, which it owns, and its export lists.
#[derive(Drop)]
pub struct Linker {
    executable: bool,
    dead_strip_dylibs: bool,
    headerpad: bool,
    output: Vec<u8>,
    entry: Vec<u8>,
    install_name: Vec<u8>,
    rpaths: Vec<Vec<u8>>,
    versions: Option<(u32, u32)>,
    inputs: Vec<OwnedInput>,
    export_lists: Vec<Vec<u8>>,
}

impl Model for Linker {
    ghost use Rattle.std.specs.Prelude.{◌≡◌, length, false, map, [], ◌<◌, ◌^◌, All};
    ghost use Rattle.macho_model.specs.Links.{Link};
    ghost use Rattle.macho_model.specs.Faults.{bad_name};
    ghost use Rattle.macho_promise.specs.Inputs.{IsInput};
    ghost use Rattle.macho_linker.specs.Owned.{input_of};
    ghost use Rattle.macho_linker.specs.Held.{held_link};

    ghost Value = { Link };

    ghost view = { λ l. held_link l.executable l.dead_strip_dylibs l.headerpad l.output.items l.entry.items l.install_name.items
        (map (λ r. r.items) l.rpaths.items) l.versions (map input_of l.inputs.items) (map (λ t. t.items) l.export_lists.items) };

    ghost invariant = { λ l. All (λ input. IsInput (input_of input)) l.inputs.items × (length l.inputs.items < 2 ^ 32)
        × (bad_name (held_link l.executable l.dead_strip_dylibs l.headerpad l.output.items l.entry.items l.install_name.items
        (map (λ r. r.items) l.rpaths.items) l.versions [] []) ≡ false) };
}

/// An input as the linker owns it.
#[derive(Drop)]
pub enum InputView<'a> {
    /// A relocatable object.
    Object(File<'a>),
    /// A dynamic library.
    Dylib(File<'a>),
    /// A text stub.
    Stub(&'a str),
}

/// Whether a NUL stands in one of the paths.
fn any_has_nul(paths: &[String]) -> bool
    ensures { result ≡ list_any has_zero (map string_bytes paths.now) }
{
    paths.iter().any(|path| has_nul(path.as_bytes()))
}

/// The bytes of the paths.
fn bytes_of(alloc: Global, paths: &[String]) -> Result<Vec<Vec<u8>>, AllocError>
    ensures { IfOk result (λ copies. map (λ c. c.items) copies.items ≡ map string_bytes paths.now) }
{
    let mut copies = Vec::new(alloc);
    for path in paths {
        copies.push(path.as_bytes().to_vec(alloc)?)?;
    }
    Ok(copies)
}

/// The least version of the system, and that of the SDK.
fn versions_in(platform: &Option<PlatformVersion>) -> Option<(u32, u32)>
    ensures { result ≡ option_map (λ p. (p.minimum_version, p.sdk_version)) (option_map platform_of platform.now) }
{
    match platform {
        Some(version) => Some((version.minimum_version.get(), version.sdk_version.get())),
        None => None,
    }
}

/// The refusal of a stub's text.
fn refusal_of_stub(fault: StubFault) -> LinkError
    ensures { result ≡ stub_refusal fault }
{
    match fault {
        StubFault::Rule { line, rule } => LinkError::BadInput {
            fault: InputFault::Stub { line, rule },
        },
        StubFault::OutOfMemory => LinkError::OutOfMemory,
    }
}

/// Refuses a text that is no stub.
fn check_stub(alloc: Global, text: &str) -> Result<(), LinkError>
    ensures found { OnOk result (IsReadStub text.now) }
    ensures why { IfErr result (StubRefused text.now) }
{
    if let Err(fault) = parse_defined_library(alloc, text) {
        return Err(refusal_of_stub(fault));
    }
    Ok(())
}

/// A view of an input that is what its kind says.
fn view_of(input: &OwnedInput) -> InputView<'_>
    requires { IsInput (input_of input.now) }
    ensures { Shows (input_of input.now) result }
{
    match input {
        OwnedInput::Object(object) => InputView::Object(File::of_valid(&object.bytes, false)),
        OwnedInput::Dylib(bytes) => InputView::Dylib(File::of_valid(bytes, true)),
        OwnedInput::Stub(stub) => InputView::Stub(stub.text.as_str()),
    }
}

impl Linker {
    /// A linker without inputs and export lists.
    ///
    /// # Errors
    ///
    /// `BadName` where the output path has no file name, or a NUL stands in it, in the install name or in a run path.
    pub fn new(alloc: Global, args: &MachOArgs) -> Result<Linker, LinkError>
        ensures made { IfOk result (λ linker. linker ≡ link_of (settings_of args.now)) }
        ensures fine { OnOk result (bad_name (link_of (settings_of args.now)) ≡ false) }
        ensures why { IfErr result (ArgsRefused (link_of (settings_of args.now))) }
    {
        let output = args.output.as_bytes();
        let install_name = args.dylib_install_name();
        if has_no_file_name(output)
            || has_nul(output)
            || has_nul(install_name)
            || any_has_nul(&args.rpaths)
        {
            return Err(LinkError::BadName);
        }
        Ok(Linker {
            executable: !args.dylib,
            dead_strip_dylibs: args.dead_strip_dylibs,
            headerpad: args.headerpad_max_install_names,
            output: output.to_vec(alloc)?,
            entry: args.entry.as_bytes().to_vec(alloc)?,
            install_name: install_name.to_vec(alloc)?,
            rpaths: bytes_of(alloc, &args.rpaths)?,
            versions: versions_in(&args.platform_version),
            inputs: Vec::new(alloc),
            export_lists: Vec::new(alloc),
        })
    }

    /// Takes an object, and gives its number.
    ///
    /// # Errors
    ///
    /// `BadInput` where the bytes break a rule of objects, `OutOfMemory`. A refused object is dropped.
    pub fn add_object(&mut self, bytes: Vec<u8>) -> Result<u32, LinkError>
        requires few { length self.old.inputs < 2 ^ 32 - 1 }
        ensures added { IfOk result (λ file. (file ≡ length self.old.inputs) × (self.new ≡ with_input self.old (Object bytes.items))) }
        ensures found { OnOk result (IsObject bytes.items) }
        ensures kept { OnErr result (self.new ≡ self.old) }
        ensures why { IfErr result (ObjectRefused bytes.items) }
    {
        if let Err(fault) = File::parse_bytes(&bytes, false) {
            return Err(LinkError::BadInput {
                fault: InputFault::Object(fault),
            });
        }
        let file = self.num_inputs();
        self.inputs.push(OwnedInput::Object(ObjectBytes { bytes }))?;
        Ok(file)
    }

    /// Takes a dynamic library, and gives its number.
    ///
    /// # Errors
    ///
    /// `BadInput` where the bytes break a rule of dynamic libraries, `OutOfMemory`. A refused library is dropped.
    pub fn add_dylib(&mut self, bytes: Vec<u8>) -> Result<u32, LinkError>
        requires few { length self.old.inputs < 2 ^ 32 - 1 }
        ensures added { IfOk result (λ file. (file ≡ length self.old.inputs) × (self.new ≡ with_input self.old (Dylib bytes.items))) }
        ensures found { OnOk result (IsDylib bytes.items) }
        ensures kept { OnErr result (self.new ≡ self.old) }
        ensures why { IfErr result (DylibRefused bytes.items) }
    {
        if let Err(fault) = File::parse_bytes(&bytes, true) {
            return Err(LinkError::BadInput {
                fault: InputFault::Object(fault),
            });
        }
        let file = self.num_inputs();
        self.inputs.push(OwnedInput::Dylib(bytes))?;
        Ok(file)
    }

    /// Takes a text stub, and gives its number.
    ///
    /// # Errors
    ///
    /// `BadInput` where the text is outside the grammar of stubs or breaks a rule of them, `OutOfMemory`. A refused text is
    /// dropped.
    pub fn add_stub(&mut self, text: String) -> Result<u32, LinkError>
        requires few { length self.old.inputs < 2 ^ 32 - 1 }
        ensures number { IfOk result (λ file. file ≡ length self.old.inputs) }
        ensures added { OnOk result (TakesStub self.old self.new (string_bytes text)) }
        ensures kept { OnErr result (self.new ≡ self.old) }
        ensures why { IfErr result (StubRefused (string_bytes text)) }
    {
        check_stub(*self.inputs.allocator(), text.as_str())?;
        let file = self.num_inputs();
        self.inputs.push(OwnedInput::Stub(StubText { text }))?;
        Ok(file)
    }

    /// Takes the text of an export list, behind those before it.
    ///
    /// # Errors
    ///
    /// `OutOfMemory`.
    pub fn add_export_list(&mut self, text: &[u8]) -> Result<(), LinkError>
        ensures added { OnOk result (self.new ≡ with_export_list self.old text.now) }
        ensures kept { OnErr result (self.new ≡ self.old) }
        ensures why { IfErr result (λ e. e ≡ OutOfMemory) }
    {
        let copy = text.to_vec(*self.export_lists.allocator())?;
        self.export_lists.push(copy)?;
        Ok(())
    }

    /// How many files were added.
    pub fn num_inputs(&self) -> u32
        ensures { result ≡ length self.now.inputs }
    {
        self.inputs.len() as u32
    }

    /// A file by its number, None where no file has it.
    pub fn input(&self, index: u32) -> Option<InputView<'_>>
        ensures { ShowsInput self.now index result }
    {
        match self.inputs.get(index as usize) {
            Some(input) => Some(view_of(input)),
            None => None,
        }
    }

    /// The bytes of a file as it was taken, None where no file has the number.
    pub fn input_bytes(&self, index: u32) -> Option<&[u8]>
        ensures { ShowsBytes self.now index result }
    {
        match self.inputs.get(index as usize) {
            Some(OwnedInput::Object(object)) => Some(object.bytes.as_slice()),
            Some(OwnedInput::Dylib(bytes)) => Some(bytes.as_slice()),
            Some(OwnedInput::Stub(stub)) => Some(stub.text.as_bytes()),
            None => None,
        }
    }

    /// The texts of the export lists, in the order in which they were added.
    pub fn export_lists(&self) -> &[Vec<u8>]
        ensures { map (λ text. text.items) result.now ≡ self.now.export_lists }
    {
        &self.export_lists
    }

    /// Whether an executable is linked, and no dynamic library.
    pub fn is_executable(&self) -> bool
        ensures { result ≡ self.now.executable }
    {
        self.executable
    }

    /// Whether libraries that nothing uses are left out.
    pub fn dead_strip_dylibs(&self) -> bool
        ensures { result ≡ self.now.dead_strip_dylibs }
    {
        self.dead_strip_dylibs
    }

    /// Whether room for longer names is asked for.
    pub fn headerpad(&self) -> bool
        ensures { result ≡ self.now.headerpad }
    {
        self.headerpad
    }

    /// The path of the output.
    pub fn output(&self) -> &[u8]
        ensures { result.now ≡ self.now.output }
    {
        &self.output
    }

    /// The name at which an executable begins.
    pub fn entry(&self) -> &[u8]
        ensures { result.now ≡ self.now.entry }
    {
        &self.entry
    }

    /// The own name of a dynamic library.
    pub fn install_name(&self) -> &[u8]
        ensures { result.now ≡ self.now.install_name }
    {
        &self.install_name
    }

    /// The paths to search `@rpath` in.
    pub fn rpaths(&self) -> &[Vec<u8>]
        ensures { map (λ path. path.items) result.now ≡ self.now.rpaths }
    {
        &self.rpaths
    }

    /// The least version of the system and that of the SDK, as 16, 8 and 8 bits.
    pub fn versions(&self) -> Option<(u32, u32)>
        ensures { result ≡ self.now.versions }
    {
        self.versions
    }

    /// The inputs, by the numbers of their files.
    pub fn inputs(&self) -> &[OwnedInput]
        ensures same { map input_of result.now ≡ self.now.inputs }
        ensures read { All (λ input. IsInput (input_of input)) result.now }
        ensures held { IsHeld self.now }
    {
        &self.inputs
    }
}
