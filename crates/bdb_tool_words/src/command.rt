//! The command that the words of a command line are. Nothing here allocates.
ghost use Rattle.std.specs.Prelude.{◌≡◌, IfSome, MatchOption, None, Some, false, drop, option_copied, option_map, true};
ghost use Rattle.bdb_tool_words.specs.Commands.{action_of, asking, built_asked, command_by, command_of, command_on, commands, loading, onto_file};
ghost use Rattle.bdb_tool_words.specs.Commands.{parts_asked, row_named, rows_asked};
ghost use Rattle.bdb_tool_words.specs.declared.command.CommandName.TheVariants as command;
ghost use Rattle.bdb_tool_words.specs.declared.command.Request.TheVariants.{Get as CodeGet};
ghost use Rattle.bdb_tool_words.specs.WordsSeen.{AreOnto, IsActionSeen, IsFitAction, IsFitCommand, IsSeen, action_seen, request_seen, row_seen};

use crate::guesses::{guess_asked, order_named};
use crate::options::{
    ANY_ORDER, APART, AS_KIND, Arguments, DUPLICATES, DUPSORT, HEX, MAX_BYTES, NAME, ONTO, ORDER,
    OptionRow, PAGE_SIZE, PRINT, REST, read_arguments,
};
use crate::shapes::{duplicates_named, shape_asked};
use crate::values::{is_name, kind_named, limit_of, number_to, rows_by};
use bdb_any_order::Rows;
use bdb_model::{Kind, Order, Shape, Words};
use bdb_spelling::is_spelling;
use bdb_survey::Guess;

/// The name of a command.
#[derive(Clone, Copy)]
enum CommandName {
    Verify,
    List,
    Get,
    Dump,
    Load,
    Salvage,
    Trial,
    Range,
    Convert,
    Stat,
    Repair,
    Survey,
}

/// What `get` asks, with the name (printed) and the key as they are spelled.
#[derive(Clone, Copy)]
pub struct Lookup<'w> {
    pub name: Option<&'w [u8]>,
    pub key: &'w [u8],
    /// The key is spelled by digits.
    pub hex: bool,
    /// Data are printed.
    pub print: bool,
}

/// What `dump` asks: the database with a name as it is spelled (printed), or all.
#[derive(Clone, Copy)]
pub struct Selection<'w> {
    pub name: Option<&'w [u8]>,
    /// Data are printed.
    pub print: bool,
}

/// What `range` asks, with the name (printed) and the bounds as they are spelled.
#[derive(Clone, Copy)]
pub struct Bounds<'w> {
    pub name: Option<&'w [u8]>,
    /// The keys aren't less than this one.
    pub from: &'w [u8],
    /// They are less than this one.
    pub to: &'w [u8],
    /// The bounds are spelled by digits.
    pub hex: bool,
    /// Keys and data are printed.
    pub print: bool,
}

/// What is asked of a file whose databases can be read.
#[derive(Clone, Copy)]
pub enum Reading<'w> {
    Verify,
    List,
    Get(Lookup<'w>),
    Dump(Selection<'w>),
}

/// What is asked of a sound file.
#[derive(Clone, Copy)]
pub enum Request<'w> {
    Get(Lookup<'w>),
    Range(Bounds<'w>),
    /// The file in a byte order.
    Convert(Order),
    /// The figures of its pages.
    Stat,
}

/// What is salvaged: all together, each database that is found, or what belongs to none.
#[derive(Clone, Copy)]
pub enum Parts {
    Together,
    Apart,
    Rest,
}

/// What `salvage` asks: the guess that is given, whether data are printed, and what is salvaged.
#[derive(Clone, Copy)]
pub struct Salvage {
    pub guess: Option<Guess>,
    pub print: bool,
    pub parts: Parts,
}

/// What a repaired file has: each database that is found, one of a shape, or without a shape those that `salvage` writes.
#[derive(Clone, Copy)]
pub enum Built {
    Each,
    Shaped(Option<Shape>),
}

/// What `repair` asks: what the new file has, and the guess that is given.
#[derive(Clone, Copy)]
pub struct Repair {
    pub built: Built,
    pub guess: Option<Guess>,
}

/// What `trial` generates: so many pairs of a kind, from a seed.
#[derive(Clone, Copy)]
pub struct Trial {
    pub kind: Kind,
    pub seed: u32,
    pub count: u32,
}

/// What a command does.
#[derive(Clone, Copy)]
pub enum Action<'w> {
    /// Something is read of a file on which none of these rows holds.
    Read(Rows, Reading<'w>),
    Ask(Request<'w>),
    Load,
    /// A text is loaded onto the file of this word.
    LoadOnto(&'w [u8]),
    Salvage(Salvage),
    Repair(Repair),
    /// What an image still has is counted, by the given guess.
    Survey(Option<Guess>),
    Trial(Trial),
}

/// A command: what it does, and its limit in bytes, for its input, a base and an image that it builds.
#[derive(Clone, Copy)]
pub struct Command<'w> {
    pub limit: u32,
    pub action: Action<'w>,
}

/// The greatest seed of `trial`.
const GREATEST_SEED: u32 = 2147483647;

/// The most pairs that `trial` makes.
const MOST_PAIRS: u32 = 200000;

/// A command of the table: its name and its word, the options that it has, and how many operands.
#[derive(Clone, Copy)]
struct CommandRow {
    name: CommandName,
    word: &'static [u8],
    options: &'static [OptionRow],
    operands: usize,
}

/// The table.
const COMMANDS: [CommandRow; 12] = [
    CommandRow {
        name: CommandName::Verify,
        word: b"verify",
        options: &[MAX_BYTES, ANY_ORDER],
        operands: 0,
    },
    CommandRow {
        name: CommandName::List,
        word: b"list",
        options: &[MAX_BYTES, ANY_ORDER],
        operands: 0,
    },
    CommandRow {
        name: CommandName::Get,
        word: b"get",
        options: &[MAX_BYTES, NAME, HEX, PRINT, ANY_ORDER],
        operands: 1,
    },
    CommandRow {
        name: CommandName::Dump,
        word: b"dump",
        options: &[MAX_BYTES, NAME, PRINT, ANY_ORDER],
        operands: 0,
    },
    CommandRow {
        name: CommandName::Load,
        word: b"load",
        options: &[MAX_BYTES, ONTO],
        operands: 0,
    },
    CommandRow {
        name: CommandName::Salvage,
        word: b"salvage",
        options: &[MAX_BYTES, ORDER, PAGE_SIZE, PRINT, APART, REST],
        operands: 0,
    },
    CommandRow {
        name: CommandName::Trial,
        word: b"trial",
        options: &[MAX_BYTES],
        operands: 3,
    },
    CommandRow {
        name: CommandName::Range,
        word: b"range",
        options: &[MAX_BYTES, NAME, HEX, PRINT],
        operands: 2,
    },
    CommandRow {
        name: CommandName::Convert,
        word: b"convert",
        options: &[MAX_BYTES],
        operands: 1,
    },
    CommandRow {
        name: CommandName::Stat,
        word: b"stat",
        options: &[MAX_BYTES],
        operands: 0,
    },
    CommandRow {
        name: CommandName::Repair,
        word: b"repair",
        options: &[
            MAX_BYTES, ORDER, PAGE_SIZE, AS_KIND, DUPLICATES, DUPSORT, APART,
        ],
        operands: 0,
    },
    CommandRow {
        name: CommandName::Survey,
        word: b"survey",
        options: &[MAX_BYTES, ORDER, PAGE_SIZE],
        operands: 0,
    },
];

/// The command that the words behind the program's name are, or `None` if they are none. It takes no memory.
pub fn command_of<'w>(words: &'w Words) -> Option<Command<'w>>
    ensures command { MatchOption result (command_of words.now ≡ None) (IsSeen (command_of words.now)) }
    ensures fit { IfSome result IsFitCommand }
{
    let first = words.get(0)?;
    command_by(row_named(first)?, words)
}

/// The file that is opened as the base: the value of `--onto` of a `load`, or `None` for other words. It takes no memory.
pub fn onto_file(words: &Words) -> Option<&[u8]>
    ensures { option_copied result ≡ onto_file words.now }
{
    match command_of(words)?.action {
        Action::LoadOnto(file) => Some(file),
        _ => None,
    }
}

/// The limit in bytes of a `load` with `--onto`, for the text, the base and the image; or `None` for other words.
pub fn base_limit(words: &Words) -> Option<u32>
    ensures { MatchOption result (command_on words.now true ≡ command_on words.now false) (AreOnto words.now) }
{
    let command = command_of(words)?;
    match command.action {
        Action::LoadOnto(_) => Some(command.limit),
        _ => None,
    }
}

// The row of the table with a word.
fn row_named(word: &[u8]) -> Option<CommandRow>
    ensures { option_map row_seen result ≡ row_named word.now commands }
{
    for row in &COMMANDS {
        if word == row.word {
            return Some(*row);
        }
    }
    None
}

// The command of a row, by the words after its own.
fn command_by<'w>(row: CommandRow, words: &'w Words) -> Option<Command<'w>>
    ensures command { MatchOption result (command_by (row_seen row) (drop 1 words.now) ≡ None) (IsSeen (command_by (row_seen row) (drop 1 words.now))) }
    ensures fit { IfSome result IsFitCommand }
{
    let read = read_arguments(words, row.options)?;
    if read.operand_count() != row.operands {
        return None;
    }
    let limit = limit_of(read.value(MAX_BYTES))?;
    let action = action_of(row.name, &read)?;
    Some(Command { limit, action })
}

// What a command does by its options and operands.
fn action_of<'w>(name: CommandName, read: &Arguments<'w>) -> Option<Action<'w>>
    ensures action { MatchOption result (action_of name read.now ≡ None) (IsActionSeen (action_of name read.now)) }
    ensures fit { IfSome result IsFitAction }
{
    match name {
        CommandName::Verify => Some(Action::Read(rows_asked(read), Reading::Verify)),
        CommandName::List => Some(Action::Read(rows_asked(read), Reading::List)),
        CommandName::Get => get_action(read),
        CommandName::Dump => dump_action(read),
        CommandName::Load => Some(load_action(read.value(ONTO))),
        CommandName::Salvage => salvage_action(read),
        CommandName::Trial => trial_action(read),
        CommandName::Range => range_action(read),
        CommandName::Convert => convert_action(read),
        CommandName::Stat => Some(Action::Ask(Request::Stat)),
        CommandName::Repair => repair_action(read),
        CommandName::Survey => survey_action(read),
    }
}

// The rows that count, by whether any order is asked for.
fn rows_asked(read: &Arguments<'_>) -> Rows
    ensures { result ≡ rows_asked read.now }
{
    rows_by(read.has(ANY_ORDER))
}

// What `get` does with what it asks: it goes down a tree, but where any order is asked for.
fn lookup_action(rows: Rows, lookup: Lookup<'_>) -> Action<'_>
    ensures seen { action_seen result ≡ asking rows (request_seen (CodeGet lookup.entry)) }
    ensures fit { IsFitAction result }
{
    match rows {
        Rows::All => Action::Ask(Request::Get(lookup)),
        Rows::AnyOrder => Action::Read(Rows::AnyOrder, Reading::Get(lookup)),
    }
}

// What `get` does.
fn get_action<'w>(read: &Arguments<'w>) -> Option<Action<'w>>
    ensures action { MatchOption result (action_of command.Get read.now ≡ None) (IsActionSeen (action_of command.Get read.now)) }
    ensures fit { IfSome result IsFitAction }
{
    let key = read.operand(0)?;
    let name = read.value(NAME);
    let hex = read.has(HEX);
    if !is_name(name) || !is_spelling(key, !hex) {
        return None;
    }
    let lookup = Lookup {
        name,
        key,
        hex,
        print: read.has(PRINT),
    };
    Some(lookup_action(rows_asked(read), lookup))
}

// What `dump` does.
fn dump_action<'w>(read: &Arguments<'w>) -> Option<Action<'w>>
    ensures action { MatchOption result (action_of command.Dump read.now ≡ None) (IsActionSeen (action_of command.Dump read.now)) }
    ensures fit { IfSome result IsFitAction }
{
    let name = read.value(NAME);
    if !is_name(name) {
        return None;
    }
    let selection = Selection {
        name,
        print: read.has(PRINT),
    };
    Some(Action::Read(rows_asked(read), Reading::Dump(selection)))
}

// What `load` does, by the file that it is loaded onto.
fn load_action<'w>(onto: Option<&'w [u8]>) -> Action<'w>
    ensures action { action_seen result ≡ Some (loading (option_copied onto.entry)) }
    ensures fit { IsFitAction result }
{
    match onto {
        Some(file) => Action::LoadOnto(file),
        None => Action::Load,
    }
}

// What `salvage` does.
fn salvage_action<'w>(read: &Arguments<'w>) -> Option<Action<'w>>
    ensures action { MatchOption result (action_of command.Salvage read.now ≡ None) (IsActionSeen (action_of command.Salvage read.now)) }
    ensures fit { IfSome result IsFitAction }
{
    let asked = Salvage {
        guess: guess_asked(read.value(ORDER), read.value(PAGE_SIZE))?,
        print: read.has(PRINT),
        parts: parts_asked(read.has(APART), read.has(REST))?,
    };
    Some(Action::Salvage(asked))
}

// What is salvaged by the two flags, which exclude each other.
fn parts_asked(apart: bool, rest: bool) -> Option<Parts>
    ensures { result ≡ parts_asked apart rest }
{
    match (apart, rest) {
        (false, false) => Some(Parts::Together),
        (true, false) => Some(Parts::Apart),
        (false, true) => Some(Parts::Rest),
        (true, true) => None,
    }
}

// What is built: each database that is found excludes a shape.
fn built_asked(apart: bool, shape: Option<Shape>) -> Option<Built>
    ensures { result ≡ built_asked apart (Some shape) }
{
    match (apart, shape) {
        (true, None) => Some(Built::Each),
        (true, Some(_)) => None,
        (false, _) => Some(Built::Shaped(shape)),
    }
}

// What `repair` does.
fn repair_action<'w>(read: &Arguments<'w>) -> Option<Action<'w>>
    ensures action { MatchOption result (action_of command.Repair read.now ≡ None) (IsActionSeen (action_of command.Repair read.now)) }
    ensures fit { IfSome result IsFitAction }
{
    let duplicates = duplicates_named(read.has(DUPLICATES), read.has(DUPSORT));
    let asked = Repair {
        built: built_asked(
            read.has(APART),
            shape_asked(read.value(AS_KIND), duplicates)?,
        )?,
        guess: guess_asked(read.value(ORDER), read.value(PAGE_SIZE))?,
    };
    Some(Action::Repair(asked))
}

// What `survey` does.
fn survey_action<'w>(read: &Arguments<'w>) -> Option<Action<'w>>
    ensures action { MatchOption result (action_of command.Survey read.now ≡ None) (IsActionSeen (action_of command.Survey read.now)) }
    ensures fit { IfSome result IsFitAction }
{
    let guess = guess_asked(read.value(ORDER), read.value(PAGE_SIZE))?;
    Some(Action::Survey(guess))
}

// What `trial` does.
fn trial_action<'w>(read: &Arguments<'w>) -> Option<Action<'w>>
    ensures action { MatchOption result (action_of command.Trial read.now ≡ None) (IsActionSeen (action_of command.Trial read.now)) }
    ensures fit { IfSome result IsFitAction }
{
    let trial = Trial {
        kind: kind_named(read.operand(0)?)?,
        seed: number_to(GREATEST_SEED, read.operand(1)?)?,
        count: number_to(MOST_PAIRS, read.operand(2)?)?,
    };
    Some(Action::Trial(trial))
}

// What `range` does.
fn range_action<'w>(read: &Arguments<'w>) -> Option<Action<'w>>
    ensures action { MatchOption result (action_of command.Range read.now ≡ None) (IsActionSeen (action_of command.Range read.now)) }
    ensures fit { IfSome result IsFitAction }
{
    let from = read.operand(0)?;
    let to = read.operand(1)?;
    let name = read.value(NAME);
    let hex = read.has(HEX);
    if !is_name(name) || !is_spelling(from, !hex) || !is_spelling(to, !hex) {
        return None;
    }
    let bounds = Bounds {
        name,
        from,
        to,
        hex,
        print: read.has(PRINT),
    };
    Some(Action::Ask(Request::Range(bounds)))
}

// What `convert` does.
fn convert_action<'w>(read: &Arguments<'w>) -> Option<Action<'w>>
    ensures action { MatchOption result (action_of command.Convert read.now ≡ None) (IsActionSeen (action_of command.Convert read.now)) }
    ensures fit { IfSome result IsFitAction }
{
    let order = order_named(read.operand(0)?)?;
    Some(Action::Ask(Request::Convert(order)))
}
