// Loads the script and the sources of a command.
ghost use Rattle.std.specs.Prelude.{◌≡◌, ◌≢◌, ◌<◌, ◌≤◌, ◌++◌, ◌+◌, List, ℕ, Ok, Err, Some, None, map, length, vec_len, string_bytes, IfOk, OnOk, IfErr, IfSome, IsErrOf, IsTrue};
ghost use Rattle.std.specs.List.{All, Contains};
ghost use Rattle.rst_outside.specs.Causes.{Rose};
ghost use Rattle.rst_outside.specs.Files.{IsHeldUnder, IsLongUnder, bytes_under};
ghost use Rattle.rst_command.specs.Commands.{words_from, plain_input};
ghost use Rattle.rst_loads.specs.Loads.{IsShort, bytes_of, load_of, loads_of, texts_of, plain_texts, failed_of, places, IsCause, IsUnreadOf, IsUnreadIn, LoadsGive};

use rst_command::Input;
use rst_outside::{Desk, LoadError};
use std::alloc::{AllocFailed, Global};

/// The most bytes of a script or a source.
pub const TEXT_LIMIT: u64 = 1_048_576;

/// Why not all files are there.
#[derive(Clone, Copy, Debug, PartialEq, Eq)]
pub enum Stop {
    /// The load of the word at this place failed.
    Unread(u16),
    /// The file of the word at this place has more bytes than the limit.
    TooLong(u16),
    /// Memory ran out.
    NoMemory,
}

impl<T: Drop> From<AllocFailed<T>> for Stop {
    ghost use Rattle.rst_loads.specs.declared.loading.Stop.TheVariants.{NoMemory};

    ghost from_gives = { λ _ e. e ≡ NoMemory };

    fn from(_: AllocFailed<T>) -> Stop {
        Stop::NoMemory
    }
}

/// The texts of a command.
#[derive(Drop)]
pub struct Texts {
    pub script: Vec<u8>,
    /// The sources in the order of the words.
    pub sources: Vec<Vec<u8>>,
}

// Loads the file that a word names.
fn load_word<K: Desk>(alloc: Global, desk: &mut K, place: u16, name: &str) -> Result<Vec<u8>, Stop>
    ensures short { IfOk result (λ text. IsShort text.items) }
    ensures text { IfOk result (λ text. IfSome (K.files desk.old) (λ files. load_of files None (record { place = place; text = name.now }) ≡ Ok text.items)) }
    ensures stop { IfErr result (λ stop. stop ≢ Stop.NoMemory → IfSome (K.files desk.old) (λ files. load_of files (failed_of stop) (record { place = place; text = name.now }) ≡ Err stop)) }
    ensures unread { IfErr result (IsUnreadOf place) }
    ensures cause { IfErr result (IsCause (K.load_faults desk.old) (K.load_faults desk.new)) }
    ensures later { K.load_faults desk.old ≤ K.load_faults desk.new }
    ensures kept { K.files desk.new ≡ K.files desk.old }
    ensures saves { K.save_faults desk.new ≡ K.save_faults desk.old }
    ensures sure { IfErr result (λ stop. IsTrue (K.sure_loads desk.old) → stop ≢ Stop.NoMemory → IfSome (K.files desk.old) (λ files.
        load_of files None (record { place = place; text = name.now }) ≡ Err stop)) }
    ensures as_sure { K.sure_loads desk.new ≡ K.sure_loads desk.old }
    ensures room { K.sure_room desk.new ≡ K.sure_room desk.old }
{
    match desk.load(alloc, name, TEXT_LIMIT) {
        Ok(text) => Ok(text),
        Err(LoadError::Failed) => Err(Stop::Unread(place)),
        Err(LoadError::TooLong) => Err(Stop::TooLong(place)),
        Err(LoadError::NoMemory) => Err(Stop::NoMemory),
    }
}

// Loads the files that words name, one behind the other from a place on, and puts their texts behind those before.
fn load_words<K: Desk>(
    alloc: Global,
    desk: &mut K,
    place: u16,
    words: &[String],
    texts: &mut Vec<Vec<u8>>,
) -> Result<(), Stop>
    requires { place + length words.now ≤ 1000 }
    ensures short { OnOk result (All (λ text. IsShort text.items) texts.old.items → All (λ text. IsShort text.items) texts.new.items) }
    ensures count { OnOk result (length texts.new.items ≡ length texts.old.items + length words.now) }
    ensures texts { OnOk result (IfSome (K.files desk.old) (λ files. LoadsGive files (words_from place (map string_bytes words.now)) texts.old.items texts.new.items)) }
    ensures stop { IfErr result (λ stop. stop ≢ Stop.NoMemory → IfSome (K.files desk.old) (λ files.
        loads_of files (failed_of stop) (words_from place (map string_bytes words.now)) ≡ Err stop)) }
    ensures unread { IfErr result (IsUnreadIn place (place + length words.now)) }
    ensures cause { IfErr result (IsCause (K.load_faults desk.old) (K.load_faults desk.new)) }
    ensures later { K.load_faults desk.old ≤ K.load_faults desk.new }
    ensures kept { K.files desk.new ≡ K.files desk.old }
    ensures saves { K.save_faults desk.new ≡ K.save_faults desk.old }
    ensures sure { IfErr result (λ stop. IsTrue (K.sure_loads desk.old) → stop ≢ Stop.NoMemory → IfSome (K.files desk.old) (λ files.
        loads_of files None (words_from place (map string_bytes words.now)) ≡ Err stop)) }
    ensures as_sure { K.sure_loads desk.new ≡ K.sure_loads desk.old }
    ensures room { K.sure_room desk.new ≡ K.sure_room desk.old }
{
    let [first, rest @ ..] = words else {
        return Ok(());
    };
    let text = load_word(alloc, desk, place, first.as_str())?;
    texts.push(text)?;
    load_words(alloc, desk, place + 1, rest, texts)
}

#[tactic(auto, using(crate::proofs::Places::stops_inside, crate::proofs::Places::stops_first))]
/// Loads the texts of a command: the script, and then the sources in the order of the words. Each has at most 1,048,576 bytes.
///
/// Or else it answers why the first that gives none doesn't. Where its load failed, the desk has counted it; of a desk whose loads are
/// sure, there is no file of that name then (`sure`).
pub fn load_texts<K: Desk>(alloc: Global, desk: &mut K, input: &Input<'_>) -> Result<Texts, Stop>
    requires { input.now.script.place < input.now.files.first }
    ensures script { IfOk result (λ texts. IsShort texts.script.items) }
    ensures sources { IfOk result (λ texts. All (λ text. IsShort text.items) texts.sources.items) }
    ensures count { IfOk result (λ texts. length texts.sources.items ≡ length input.now.files.texts.now) }
    ensures texts { IfOk result (λ texts. IfSome (K.files desk.old) (λ files. texts_of files None (plain_input input.now) ≡ Ok (plain_texts texts))) }
    ensures stop { IfErr result (λ stop. stop ≢ Stop.NoMemory → IfSome (K.files desk.old) (λ files.
        texts_of files (failed_of stop) (plain_input input.now) ≡ Err stop)) }
    ensures loaded { IfErr result (λ stop. IfSome (failed_of stop) (Contains (places (plain_input input.now)))) }
    ensures cause { IfErr result (IsCause (K.load_faults desk.old) (K.load_faults desk.new)) }
    ensures kept { K.files desk.new ≡ K.files desk.old }
    ensures saves { K.save_faults desk.new ≡ K.save_faults desk.old }
    ensures sure { IfErr result (λ stop. IsTrue (K.sure_loads desk.old) → stop ≢ Stop.NoMemory → IfSome (K.files desk.old) (λ files.
        texts_of files None (plain_input input.now) ≡ Err stop)) }
    ensures as_sure { K.sure_loads desk.new ≡ K.sure_loads desk.old }
    ensures room { K.sure_room desk.new ≡ K.sure_room desk.old }
{
    let script = load_word(alloc, desk, input.script.place, input.script.text)?;
    let mut sources = Vec::new(alloc);
    load_words(
        alloc,
        desk,
        input.files.first,
        input.files.texts,
        &mut sources,
    )?;
    Ok(Texts { script, sources })
}
