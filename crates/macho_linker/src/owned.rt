//! An input as a linker owns it.
ghost use Rattle.std.specs.Prelude.{◌<◌, All};
ghost use Rattle.std.specs.String.{string_bytes};
ghost use Rattle.macho_linker.specs.Readings.{SaysOneThing};
ghost use Rattle.macho_linker.specs.steps.OneReading.{one_thing};

/// The text of a stub: it was read as one, and says one thing. Its reading isn't kept.
#[derive(Drop)]
pub struct StubText {
    /// The text.
    pub text: String,
    pub ghost reading: { SaysOneThing (string_bytes text) } by { one_thing (string_bytes text) },
}

/// The bytes of an object: each is a number below 256.
#[derive(Drop)]
pub struct ObjectBytes {
    /// The bytes.
    pub bytes: Vec<u8>,
    pub ghost are_bytes: { All (λ x. x < 256) bytes.items },
}

/// An input, with the kind that its bytes have.
#[derive(Drop)]
pub enum OwnedInput {
    /// A relocatable object.
    Object(ObjectBytes),
    /// A dynamic library.
    Dylib(Vec<u8>),
    /// The text of a stub.
    Stub(StubText),
}
