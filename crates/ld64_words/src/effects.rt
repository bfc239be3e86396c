//! What an option does: the words that it gives to the core, what is noted beside them, or why it does nothing or is refused.

ghost use Rattle.std.specs.Prelude.{◌≡◌};
ghost use Rattle.ld64_words.specs.Rows.{core_text};

/// A word of the core by which an option is passed on under another name.
#[derive(Clone, Copy)]
pub enum CoreName {
    /// `-install_name`.
    InstallName,
    /// `-syslibroot`.
    Root,
    /// `-l`.
    Library,
    /// `-framework`.
    Framework,
}

impl CoreName {
    /// The word.
    pub(crate) fn text(self) -> &'static str
        ensures { result.now ≡ core_text self }
    {
        match self {
            CoreName::InstallName => "-install_name",
            CoreName::Root => "-syslibroot",
            CoreName::Library => "-l",
            CoreName::Framework => "-framework",
        }
    }
}

/// What is asked for that the core has no word for. Who calls the core has to do it, or to refuse the word.
#[derive(Clone, Copy)]
pub enum Note {
    /// What the linker is has to be printed, and the link goes on.
    Version,
    /// A warning is to end the link.
    FatalWarnings,
    /// Each archive gives all its members.
    AllMembers,
    /// Each archive gives its members that have a class or a category of Objective-C.
    ObjcMembers,
    /// The archive under the path gives all its members. It is an input, too.
    AllMembersOf,
    /// A map of the image is to be written to the path.
    MapFile,
    /// The current version of the library that is made.
    CurrentVersion,
    /// The compatibility version of the library that is made.
    CompatibilityVersion,
    /// At least so many bytes, in hexadecimal digits, stay free behind the load commands.
    HeaderRoom,
    /// The name has to be defined, so that an archive's member that defines it is taken.
    WantedSymbol,
    /// The image may begin without the library of this file. It is an input, too.
    WeakFile,
    /// The image may begin without the library of this name. It is an input, too.
    WeakLibrary,
    /// The image may begin without the framework of this name. It is an input, too.
    WeakFramework,
    /// The library of this file is named by the image even if nothing uses it. It is an input, too.
    NeededFile,
    /// The library of this name is named by the image even if nothing uses it. It is an input, too.
    NeededLibrary,
    /// The framework of this name is named by the image even if nothing uses it. It is an input, too.
    NeededFramework,
}

/// Why an option does nothing, or is refused.
#[derive(Clone, Copy)]
pub enum Why {
    /// The link does so anyway.
    Default,
    /// Every image for arm64 can slide.
    Slides,
    /// Every image is signed ad hoc.
    Signed,
    /// The loader binds all imports before the program begins.
    Bound,
    /// No code, data or symbol is stripped: the image does the same, and is larger.
    StripsNothing,
    /// No code, string or list is merged or converted: the image does the same, and is larger.
    MergesNothing,
    /// All global names are exported unless a list says otherwise.
    ExportsAll,
    /// The image has no such table or version.
    NoTables,
    /// No call is led over an island, and no hint is followed.
    NoIslands,
    /// Options inside objects are not read.
    NoOptions,
    /// Nothing but the notes and the fault is printed.
    NoWarnings,
    /// It has no meaning for a final image of today.
    Obsolete,
    /// The image is the same with any such word.
    SameBytes,
    /// No object of link time optimization is taken, so nothing asks for it.
    NoLto,
    /// The image has no debug map.
    NoDebugMap,
    /// The libraries that a library needs are not opened.
    NoDependents,
    /// No file of dependencies is written.
    NoDependencyFile,
    /// Only programs and dynamic libraries are made: compile for one of them, or give -dylib.
    OtherOutput,
    /// Only arm64 for macOS is linked: give -arch arm64 and -platform_version macos MIN SDK.
    OtherTarget,
    /// Give the version of the SDK as the third value of -platform_version.
    SdkVersion,
    /// Each name is bound to one library: list the names that no input defines in a stub.
    LooksUp,
    /// The definition of a name is chosen by one rule: leave the word out.
    OneDefinition,
    /// Sections keep the order of the inputs: order the inputs instead.
    Order,
    /// No section is made from a file: put the bytes into an object by .incbin.
    FromFile,
    /// Segments and sections are placed by one rule: leave the word out.
    Placed,
    /// The stack and the heap are those of the system: set them when the thread is made.
    Stack,
    /// Exports are chosen by -exported_symbols_list FILE alone: put the names into such a file.
    Exports,
    /// No library is passed on under another: link it as -lNAME.
    Reexports,
    /// Every library is loaded when the program begins: link it as -lNAME, or call dlopen.
    Lazy,
    /// An archive's names are exported like others: list the names to be exported by -exported_symbols_list.
    Hides,
    /// No symbol is stripped by a link: use strip on the image.
    Strips,
    /// Every image is signed ad hoc: remove the signature by codesign if it is not wanted.
    SignatureStands,
    /// The UUID is made of the inputs, so that the same link gives the same image: leave the word out.
    UuidStands,
    /// The image has no such load command or flag: leave the word out.
    Commands,
    /// Pointers are fixed up by chains alone: leave the word out.
    Chains,
    /// Unwind entries are written by one rule: leave the word out.
    Unwind,
    /// No stub of Objective-C is made: compile with -fno-objc-msgsend-selector-stubs.
    ObjcStubs,
    /// Initializers are those of the objects: mark the function as a constructor.
    Initializers,
    /// Libraries are sought along each path in turn: give the file itself in place of -l.
    Searches,
    /// No bitcode is taken: compile without it.
    Bitcode,
    /// No option of this linker has this name: see its list of words.
    Unknown,
}

impl Why {
    /// The reason in one sentence, to be printed behind the word. That of a refusal says what to do.
    pub fn sentence(self) -> &'static str {
        match self {
            Why::Default => "the link does so anyway",
            Why::Slides => "every image for arm64 can slide",
            Why::Signed => "every image is signed ad hoc",
            Why::Bound => "the loader binds all imports before the program begins",
            Why::StripsNothing => {
                "no code, data or symbol is stripped: the image does the same, and is larger"
            }
            Why::MergesNothing => {
                "no code, string or list is merged or converted: the image does the same, and is larger"
            }
            Why::ExportsAll => "all global names are exported unless a list says otherwise",
            Why::NoTables => "the image has no such table or version",
            Why::NoIslands => "no call is led over an island, and no hint is followed",
            Why::NoOptions => "options inside objects are not read",
            Why::NoWarnings => "nothing but the notes and the fault is printed",
            Why::Obsolete => "it has no meaning for a final image of today",
            Why::SameBytes => "the image is the same with any such word",
            Why::NoLto => "no object of link time optimization is taken, so nothing asks for it",
            Why::NoDebugMap => "the image has no debug map",
            Why::NoDependents => "the libraries that a library needs are not opened",
            Why::NoDependencyFile => "no file of dependencies is written",
            Why::OtherOutput => {
                "only programs and dynamic libraries are made: compile for one of them, or give -dylib"
            }
            Why::OtherTarget => {
                "only arm64 for macOS is linked: give -arch arm64 and -platform_version macos MIN SDK"
            }
            Why::SdkVersion =>
                "give the version of the SDK as the third value of -platform_version",
            Why::LooksUp => {
                "each name is bound to one library: list the names that no input defines in a stub"
            }
            Why::OneDefinition =>
                "the definition of a name is chosen by one rule: leave the word out",
            Why::Order => "sections keep the order of the inputs: order the inputs instead",
            Why::FromFile =>
                "no section is made from a file: put the bytes into an object by .incbin",
            Why::Placed => "segments and sections are placed by one rule: leave the word out",
            Why::Stack => {
                "the stack and the heap are those of the system: set them when the thread is made"
            }
            Why::Exports => {
                "exports are chosen by -exported_symbols_list FILE alone: put the names into such a file"
            }
            Why::Reexports => "no library is passed on under another: link it as -lNAME",
            Why::Lazy => {
                "every library is loaded when the program begins: link it as -lNAME, or call dlopen"
            }
            Why::Hides => {
                "an archive's names are exported like others: list the names to be exported by -exported_symbols_list"
            }
            Why::Strips => "no symbol is stripped by a link: use strip on the image",
            Why::SignatureStands => {
                "every image is signed ad hoc: remove the signature by codesign if it is not wanted"
            }
            Why::UuidStands => {
                "the UUID is made of the inputs, so that the same link gives the same image: leave the word out"
            }
            Why::Commands => "the image has no such load command or flag: leave the word out",
            Why::Chains => "pointers are fixed up by chains alone: leave the word out",
            Why::Unwind => "unwind entries are written by one rule: leave the word out",
            Why::ObjcStubs => {
                "no stub of Objective-C is made: compile with -fno-objc-msgsend-selector-stubs"
            }
            Why::Initializers => {
                "initializers are those of the objects: mark the function as a constructor"
            }
            Why::Searches => {
                "libraries are sought along each path in turn: give the file itself in place of -l"
            }
            Why::Bitcode => "no bitcode is taken: compile without it",
            Why::Unknown => "no option of this linker has this name: see its list of words",
        }
    }
}

/// What an option does. Its operand is the first word behind it, or what follows its name in the same word.
#[derive(Clone, Copy)]
pub enum Effect {
    /// The core has the same option: the word and its operands are passed on.
    Kept,
    /// The core has it under this name: that and the operand are passed on.
    Renamed(CoreName),
    /// The same, but in front of all other words.
    First(CoreName),
    /// It gives the lowest version of macOS alone: the version of the SDK is the same.
    Lowest,
    /// The core has no such option: the operand is noted.
    Noted(Note),
    /// The name and the operand are passed on, and the operand is noted, too.
    Marked(CoreName, Note),
    /// The operand is the path of an input, which is passed on, and noted, too.
    Path(Note),
    /// It does nothing.
    Ignored(Why),
    /// It isn't supported.
    Refused(Why),
    /// It names a file of words or of inputs, which have to stand in its place before the words are read.
    Unread,
}
