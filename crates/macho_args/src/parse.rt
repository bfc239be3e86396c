//! The words, read one after another.
//!
//! Each word is an option's name, a value of the option before it, an option with its value behind two letters,
//! or an input. So `-o out a.o -lc` gives the output `out`, the file `a.o` of word 2 and the library `c` of word 3.

ghost use Rattle.std.specs.Prelude.{◌≡◌, ◌+◌, ◌-◌, ◌<◌, ◌^◌, length, drop, map, Some, Ok, Err, OnOk, OnErr, IfOk, IfErr, MatchResult, ◌⊎◌, []};
ghost use Rattle.std.specs.Option.{option_map_or};
ghost use Rattle.std.specs.String.{string_bytes};
ghost use Rattle.macho_args.specs.declared.fault.ArgsFault.TheVariants.{OutOfMemory};
ghost use Rattle.macho_args.specs.declared.options.LinkOption.TheVariants.{PlatformVersion};
ghost use Rattle.macho_args.specs.steps.Effects.{HasCause};
ghost use Rattle.macho_args.specs.steps.KeptRoot.{keep_root};
ghost use Rattle.macho_args.specs.Effects.{with_value};
ghost use Rattle.macho_args.specs.Options.{joined_option, option_named as option_of};
ghost use Rattle.macho_args.specs.SearchPaths.{IsParsed, IsRefused};
ghost use Rattle.macho_args.specs.Settings.{settings_of, fresh};
ghost use Rattle.macho_args.specs.Words.{read_from, read_option, read_plain, without_inputs};

use crate::fault::ArgsFault;
use crate::fields::{InputSpec, MachOArgs};
use crate::options::{LinkOption, Valued, option_named};
use crate::outside::Paths;
use crate::words::{after_prefix, begins_with};
use std::alloc::Global;

impl MachOArgs {
    /// Reads the words of a command line, which follow the program's name. The fields become what the words
    /// say, where the root and the framework paths follow what `paths` answers.
    ///
    /// A fault names the first word that breaks its option's rule. After it the fields are as they were.
    pub fn parse<D: Paths>(&mut self, words: &[String], paths: &mut D) -> Result<(), ArgsFault>
        requires fresh { settings_of self.old ≡ fresh }
        requires few { length words.now < 2 ^ 32 - 1 }

        // The fields are the meaning of the words.
        ensures done { OnOk result (IsParsed (D.state paths.old) (map string_bytes words.now) (settings_of self.new)) }

        // A fault is that of the words, or memory ran out.
        ensures why { IfErr result (λ fault. (fault ≡ OutOfMemory) ⊎ IsRefused (map string_bytes words.now) fault) }
        ensures kept { OnErr result (settings_of self.new ≡ settings_of self.old) }
        ensures outside { D.state paths.new ≡ D.state paths.old }
    {
        let alloc = *self.inputs.allocator();
        let mut args = MachOArgs::new(alloc)?;
        args.read_command_line(alloc, words, paths)?;
        *self = args;
        Ok(())
    }

    // Reads all words into fresh fields, and then follows the root.
    fn read_command_line<D: Paths>(
        &mut self,
        alloc: Global,
        words: &[String],
        paths: &mut D,
    ) -> Result<(), ArgsFault>
        requires fresh { settings_of self.old ≡ fresh }
        requires few { length words.now < 2 ^ 32 - 1 }
        ensures done { OnOk result (IsParsed (D.state paths.old) (map string_bytes words.now) (settings_of self.new)) }
        ensures why { IfErr result (λ fault. (fault ≡ OutOfMemory) ⊎ IsRefused (map string_bytes words.now) fault) }
        ensures outside { D.state paths.new ≡ D.state paths.old }
    {
        self.read_words(alloc, words)?;
        self.refuse_inputs()?;
        self.settle_root(alloc, paths)?;
        self.move_frameworks(alloc, paths)?;
        Ok(())
    }

    // An input beside `-generate` isn't supported: the first one is told.
    fn refuse_inputs(&self) -> Result<(), ArgsFault>
        ensures { let s = settings_of self.now in MatchResult result
            (λ _. without_inputs s.generate s.inputs s ≡ Ok s)
            (λ fault. without_inputs s.generate s.inputs s ≡ Err fault) }
    {
        match (self.generate, self.inputs.first()) {
            (Some(_), Some(input)) => Err(ArgsFault::Unsupported { word: input.word() }),
            _ => Ok(()),
        }
    }

    // Reads the words in order.
    pub(crate) fn read_words(&mut self, alloc: Global, words: &[String]) -> Result<(), ArgsFault>
        requires { length words.now < 2 ^ 32 - 1 }
        ensures done { OnOk result
            (read_from keep_root 0 0 (map string_bytes words.now) (settings_of self.old) ≡ Ok (settings_of self.new)) }
        ensures why { IfErr result (HasCause (read_from keep_root 0 0 (map string_bytes words.now) (settings_of self.old))) }
    {
        let mut values = 0;
        for i in 0..words.len() {
            values = self.read_next(alloc, words, i, values)?;
        }
        Ok(())
    }

    // Reads the word at this place, unless it is a value of the option before it, as the next `values` words
    // are. Answers the same of the words behind it.
    fn read_next(
        &mut self,
        alloc: Global,
        words: &[String],
        place: usize,
        values: usize,
    ) -> Result<usize, ArgsFault>
        requires within { place < length words.now }
        requires few { length words.now < 2 ^ 32 - 1 }
        ensures done { IfOk result (λ left.
            read_from keep_root values place (map string_bytes (drop place words.now)) (settings_of self.old)
            ≡ read_from keep_root left (place + 1) (map string_bytes (drop (place + 1) words.now)) (settings_of self.new)) }
        ensures why { IfErr result
            (HasCause (read_from keep_root values place (map string_bytes (drop place words.now)) (settings_of self.old))) }
    {
        if values > 0 {
            return Ok(values - 1);
        }
        self.read_word(
            alloc,
            place as u32,
            words[place].as_str(),
            &words[place + 1..],
        )
    }

    // Reads the word with this index, and answers how many of the words behind it are its values.
    fn read_word(
        &mut self,
        alloc: Global,
        word: u32,
        text: &str,
        behind: &[String],
    ) -> Result<usize, ArgsFault>
        requires { word + 1 + length behind.now < 2 ^ 32 }
        ensures done { IfOk result (λ values.
            read_option keep_root (option_of text.now) word text.now (map string_bytes behind.now) (settings_of self.old)
            ≡ Ok (settings_of self.new, values)) }
        ensures why { IfErr result (HasCause
            (read_option keep_root (option_of text.now) word text.now (map string_bytes behind.now) (settings_of self.old))) }
    {
        match option_named(text) {
            Some(LinkOption::Sets(flag)) => {
                self.set_flag(flag);
                Ok(0)
            }
            Some(LinkOption::Takes(option)) => {
                let [value, ..] = behind else {
                    return Err(ArgsFault::MissingValue { word });
                };
                self.set_value(alloc, option, word + 1, value.as_str())?;
                Ok(1)
            }
            Some(LinkOption::PlatformVersion) => self.read_platform(alloc, word, behind),
            Some(LinkOption::Ignored) => Ok(0),
            Some(LinkOption::Refused) => Err(ArgsFault::Unsupported { word }),
            None => {
                self.read_unnamed(alloc, word, text)?;
                Ok(0)
            }
        }
    }

    // Reads the three words behind `-platform_version`, which is the word with this index.
    fn read_platform(
        &mut self,
        alloc: Global,
        word: u32,
        behind: &[String],
    ) -> Result<usize, ArgsFault>
        requires { word + 1 + length behind.now < 2 ^ 32 }
        ensures done { IfOk result (λ values.
            read_option keep_root (Some PlatformVersion) word [] (map string_bytes behind.now) (settings_of self.old)
            ≡ Ok (settings_of self.new, values)) }
        ensures why { IfErr result (HasCause
            (read_option keep_root (Some PlatformVersion) word [] (map string_bytes behind.now) (settings_of self.old))) }
    {
        let [platform, minimum, sdk, ..] = behind else {
            return Err(ArgsFault::MissingValue { word });
        };
        self.set_platform(
            alloc,
            word,
            platform.as_str(),
            minimum.as_str(),
            sdk.as_str(),
        )?;
        Ok(3)
    }

    // Reads a word that is no option's name.
    #[tactic(auto, unfolding(crate::specs::Options::joined_option))]
    fn read_unnamed(&mut self, alloc: Global, word: u32, text: &str) -> Result<(), ArgsFault>
        ensures done { OnOk result
            (option_map_or (λ option. with_value keep_root option word (drop 2 text.now) (settings_of self.old))
            (joined_option text.now) (read_plain word text.now (settings_of self.old)) ≡ Ok (settings_of self.new)) }
        ensures why { IfErr result (HasCause
            (option_map_or (λ option. with_value keep_root option word (drop 2 text.now) (settings_of self.old))
            (joined_option text.now) (read_plain word text.now (settings_of self.old)))) }
    {
        if let Some(path) = after_prefix(text, "-F") {
            self.set_value(alloc, Valued::FrameworkPath, word, path)
        } else if let Some(path) = after_prefix(text, "-L") {
            self.set_value(alloc, Valued::LibraryPath, word, path)
        } else if let Some(name) = after_prefix(text, "-l") {
            self.set_value(alloc, Valued::Library, word, name)
        } else {
            self.read_plain(alloc, word, text)
        }
    }

    // Reads a word that is no option and holds no option.
    fn read_plain(&mut self, alloc: Global, word: u32, text: &str) -> Result<(), ArgsFault>
        ensures done { OnOk result (read_plain word text.now (settings_of self.old) ≡ Ok (settings_of self.new)) }
        ensures why { IfErr result (HasCause (read_plain word text.now (settings_of self.old))) }
    {
        if begins_with(text, "-") {
            return Err(ArgsFault::Unknown { word });
        }
        if begins_with(text, "@") {
            return Err(ArgsFault::Unsupported { word });
        }
        let path = String::from_str(alloc, text)?;
        self.inputs.push(InputSpec::File { word, path })?;
        Ok(())
    }
}
