ghost use Rattle.std.specs.Option.{ForSome};
ghost use Rattle.std.specs.Prelude.{◌≡◌, Some, IfOk, IfSome, IsTrue};
ghost use Rattle.spec_tree.specs.Trees.{ScriptFits};
ghost use Rattle.script_code.specs.Codes.{IsCodeFor};
ghost use Rattle.run_arena.specs.Booked.{IsCodeIn, IsCodeOfText, IsLatest, IsOver};

use crate::resolving::{Setting, code_over};
use base_texts::{Name, NoMemory, Txt};
use indexmap::IndexMap;
use script_code::{Code, ScriptCode, compile};
use script_reader::laws::scripts_read_one_way;
use spec_script::Script;
use std::alloc::Global;
use std::marker::{Brand, PhantomData};

/// The slots of keys in the scopes of a tree, as a type: contracts alone read them.
pub(crate) trait Slotting {
    ghost use Rattle.std.specs.Prelude.{List, ℕ};

    /// The slot by the number of a scope and a key.
    ghost slot: { ℕ → List ℕ → ℕ };
}

impl Slotting for Brand {
    ghost slot = { λ scope key. 0 };
}

/// A code with that over the slots of its names in the scope of this number.
#[derive(Drop)]
struct Placed<O: Slotting> {
    made: ScriptCode,
    scope: u32,
    code: Code,
    slotting: PhantomData<O>,
    ghost over: { IsOver (O.slot scope) made code },
}

impl<O: Slotting> Placed<O> {
    /// A code with that over the slots of this scope, or want of memory.
    fn of(made: &ScriptCode, scope: u32, code: &Code) -> Result<Placed<O>, NoMemory>
        requires { IsOver (O.slot scope) made.now code.now }
    {
        Ok(Placed {
            made: made.share()?,
            scope,
            code: code.share()?,
            slotting: PhantomData,
        })
    }

    /// Whether it is one of this scope whose names are those of a code.
    fn has_slots_of(&self, made: &ScriptCode, scope: u32) -> bool
        ensures scope { IsTrue result → self.now.scope ≡ scope }
        ensures names { IsTrue result → self.now.made.names ≡ made.now.names }
    {
        self.scope == scope && are_same(self.made.names(), made.names())
    }
}

/// Whether the names are the same.
fn are_same(names: &[Name], others: &[Name]) -> bool
    ensures { IsTrue result → names.now ≡ others.now }
{
    names == others
}

/// A code over the slots of its names in the scope of this number, which are shared with those of another code where the
/// names are the same. The error is want of memory.
fn placed_beside<O: Slotting>(
    made: &ScriptCode,
    beside: &Option<Placed<O>>,
    setting: &Setting<O>,
    scope: u32,
) -> Result<Code, NoMemory>
    ensures { IfOk result (IsOver (O.slot scope) made.now) }
{
    match beside {
        Some(other) if other.has_slots_of(made, scope) => Ok(made.over_those_of(&other.code)?),
        _ => code_over(made, setting, scope),
    }
}

/// The text of a script that was compiled, with its code.
#[derive(Drop)]
struct Entry<O: Slotting> {
    text: Txt,
    code: ScriptCode,
    /// The number of the scope for which it was wanted last, with the code over the slots of its names there.
    latest: Option<(u32, Code)>,
    /// The place of the entry that was wanted after this one, the last time.
    next: usize,
    slotting: PhantomData<O>,
    ghost means: { IsCodeOfText text code },
    ghost over: { ForSome latest (IsLatest O.slot code) },
}

impl<O: Slotting> Entry<O> {
    /// The code of a script in the scope of this number, where its text is that of the entry. The error is want of memory.
    fn code_in(
        &mut self,
        beside: &Option<Placed<O>>,
        setting: &Setting<O>,
        script: &Script,
        scope: u32,
    ) -> Result<Option<Code>, NoMemory>
        requires { ScriptFits (Some script.now) }
        ensures { IfOk result (λ found. IfSome found (IsCodeIn (O.slot scope) script.now)) }
    {
        if self.is_of(script) {
            return Ok(Some(self.placed_in(beside, setting, scope)?));
        }
        Ok(None)
    }

    /// Whether its text is that of a script.
    fn is_of(&self, script: &Script) -> bool
        requires { ScriptFits (Some script.now) }
        ensures { IsTrue result → IsCodeFor script.now self.now.code }
    {
        self.text.list() == script.text.list()
    }

    /// The code over the slots of the scope of this number, or want of memory.
    fn placed_in(
        &mut self,
        beside: &Option<Placed<O>>,
        setting: &Setting<O>,
        scope: u32,
    ) -> Result<Code, NoMemory>
        ensures { IfOk result (IsOver (O.slot scope) self.old.code) }
    {
        if let Some(code) = self.code_there(scope) {
            return code.share();
        }
        let code = placed_beside(&self.code, beside, setting, scope)?;
        self.latest = Some((scope, code.share()?));
        Ok(code)
    }

    /// The same, where it was wanted last for this scope.
    fn code_there(&self, scope: u32) -> Option<&Code>
        ensures { IfSome result (λ code. IsOver (O.slot scope) self.now.code code.now) }
    {
        match &self.latest {
            Some((last, code)) if *last == scope => Some(code),
            _ => None,
        }
    }

    /// The code over the slots of the scope for which it was wanted last, if there is one, or want of memory.
    fn placed(&self) -> Result<Option<Placed<O>>, NoMemory> {
        match &self.latest {
            Some((scope, code)) => Ok(Some(Placed::of(&self.code, *scope, code)?)),
            None => Ok(None),
        }
    }
}

/// The scripts of a tree, each compiled once for all nodes that have it, and given the slots of its names once for all
/// nodes in a row that have it in one scope, or another script of the same names. Scripts with one text are one script.
/// A tree that is opened again mostly wants them in the same order, so the entry that came next the last time is looked
/// at first, and a text is hashed only where that one has another text.
#[derive(Drop)]
pub(crate) struct Book<O: Slotting> {
    entries: Vec<Entry<O>>,
    places: IndexMap<Name, usize>,
    /// The place of the entry that was wanted last.
    last: usize,
}

impl<O: Slotting> Book<O> {
    /// A book without scripts. It allocates nothing.
    pub(crate) fn empty(alloc: Global) -> Book<O> {
        Book {
            entries: Vec::new(alloc),
            places: IndexMap::new(alloc),
            last: 0,
        }
    }

    /// The code of a script in the scope of this number. It is compiled where it is not there yet. The error is want of
    /// memory.
    pub(crate) fn code_in(
        &mut self,
        setting: &Setting<O>,
        script: &Script,
        scope: u32,
    ) -> Result<Code, NoMemory>
        requires { ScriptFits (Some script.now) }
        ensures { IfOk result (IsCodeIn (O.slot scope) script.now) }
    {
        let guess = self.guess();
        if let Some(code) = self.code_at(guess, setting, script, scope)? {
            self.last = guess;
            return Ok(code);
        }
        self.look_up(setting, script, scope)
    }

    /// The place of the entry that came after the last one before.
    fn guess(&self) -> usize {
        match self.entries.get(self.last) {
            Some(entry) => entry.next,
            None => 0,
        }
    }

    /// The code of a script in the scope of this number, where the entry at this place has its text. The error is want of
    /// memory.
    fn code_at(
        &mut self,
        place: usize,
        setting: &Setting<O>,
        script: &Script,
        scope: u32,
    ) -> Result<Option<Code>, NoMemory>
        requires { ScriptFits (Some script.now) }
        ensures { IfOk result (λ found. IfSome found (IsCodeIn (O.slot scope) script.now)) }
    {
        let beside = self.latest()?;
        match self.entries.get_mut(place) {
            Some(entry) => entry.code_in(&beside, setting, script, scope),
            None => Ok(None),
        }
    }

    /// What the script that was wanted last has over the slots of its names, if it has, or want of memory.
    fn latest(&self) -> Result<Option<Placed<O>>, NoMemory> {
        match self.entries.get(self.last) {
            Some(entry) => entry.placed(),
            None => Ok(None),
        }
    }

    /// The code of a script in the scope of this number. The script is looked for by its text. The error is want of memory.
    #[inline(never)]
    fn look_up(
        &mut self,
        setting: &Setting<O>,
        script: &Script,
        scope: u32,
    ) -> Result<Code, NoMemory>
        requires { ScriptFits (Some script.now) }
        ensures { IfOk result (IsCodeIn (O.slot scope) script.now) }
    {
        let text = Name::copied(setting.alloc, script.text.list())?;
        let place = match self.places.get(&text) {
            Some(place) => *place,
            None => self.add(setting.alloc, text, script)?,
        };
        if let Some(entry) = self.entries.get_mut(self.last) {
            entry.next = place;
        }
        let found = self.code_at(place, setting, script, scope)?;
        self.last = place;
        match found {
            Some(code) => Ok(code),
            None => new_code(setting, script, scope),
        }
    }

    /// Adds a script with this text, and gives its place. The error is want of memory.
    fn add(&mut self, alloc: Global, text: Name, script: &Script) -> Result<usize, NoMemory>
        requires { ScriptFits (Some script.now) }
    {
        let place = self.entries.len();
        let entry = entry_of(alloc, script, place + 1)?;
        self.entries.push(entry)?;
        self.places.insert(text, place)?;
        Ok(place)
    }
}

/// The entry of a script, before the one at this place. The error is want of memory.
fn entry_of<O: Slotting>(alloc: Global, script: &Script, next: usize) -> Result<Entry<O>, NoMemory>
    requires { ScriptFits (Some script.now) }
{
    scripts_read_one_way();
    Ok(Entry {
        text: script.text.copy(alloc)?,
        code: compiled(alloc, script)?,
        latest: None,
        next,
        slotting: PhantomData,
    })
}

/// The code of a script in the scope of this number, or want of memory.
fn new_code<O: Slotting>(
    setting: &Setting<O>,
    script: &Script,
    scope: u32,
) -> Result<Code, NoMemory>
    requires { ScriptFits (Some script.now) }
    ensures { IfOk result (IsCodeIn (O.slot scope) script.now) }
{
    let code = compiled(setting.alloc, script)?;
    Ok(code_over(&code, setting, scope)?)
}

/// The code of a script, or want of memory.
fn compiled(alloc: Global, script: &Script) -> Result<ScriptCode, NoMemory>
    requires { ScriptFits (Some script.now) }
    ensures { IfOk result (IsCodeFor script.now) }
{
    compile(alloc, script)
}
