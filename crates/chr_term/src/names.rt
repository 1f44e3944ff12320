ghost use Rattle.std.specs.Prelude.{◌≡◌, ◌<◌, ◌≤◌, ◌↔◌, ◌+◌, ℕ, [], All, length, take, IfOk, IsTrue, OnErr, OnOk, Some, slice_get, option_map};
ghost use Rattle.chr_semantics.specs.Names.{arity_at, first_names, name_at, symbol_of, with_symbol};
ghost use Rattle.chr_term.specs.Texts.{texts_of, with_text};

use crate::{Memory, Sym};
use indexmap::IndexSet;
use std::alloc::{Allocator, Global};
use std::hash::{BuildHasherDefault, FoldHasher};
use std::marker::Model;

/// How tables of this repository hash: fast, and the same in every run.
pub type FoldState = BuildHasherDefault<FoldHasher>;

/// A symbol as it is stored: the place of its name among the texts, and its arity.
#[derive(Clone, Copy, PartialEq, Eq, Hash, Debug, Drop)]
struct StoredSymbol {
    text: usize,
    arity: usize,
}

/// The names of the symbols: each pair of a name and an arity once, in the order in which they were first seen.
#[derive(Drop)]
pub struct Names<A: Allocator = Global> {
    /// Each name once, however many arities it has.
    texts: IndexSet<String<A>, FoldState, A>,
    /// The symbols, each at the place that is its number.
    entries: IndexSet<StoredSymbol, FoldState, A>,
    alloc: A,
}

impl<A: Allocator> Model for Names<A> {
    ghost use Rattle.std.specs.Prelude.{List, ℕ};

    ghost Value = { List (List ℕ × ℕ) };

    ghost use Rattle.chr_term.specs.Texts.{texts_of};
    ghost use Rattle.chr_term.specs.Entries.{entry_names, IsTable};

    ghost view = { λ names. entry_names (texts_of names.texts.keys) names.entries.keys };

    ghost invariant = { λ names. IsTable (texts_of names.texts.keys) names.entries.keys };
}

impl<A: Allocator + Copy> Names<A> {
    /// The seven symbols that the language gives a meaning, the constants of `Sym`.
    pub fn new(alloc: A) -> Result<Names<A>, Memory>
        ensures { IfOk result (λ names. names ≡ first_names) }
    {
        let mut names = Names::empty(alloc);
        names.begin()?;
        Ok(names)
    }

    /// Enters these seven, where there is none yet.
    fn begin(&mut self) -> Result<(), Memory>
        requires { self.old ≡ [] }
        ensures { OnOk result (self.new ≡ first_names) }
    {
        self.intern("[]", 0)?;
        self.intern("[|]", 2)?;
        self.intern("+", 2)?;
        self.intern("-", 2)?;
        self.intern("*", 2)?;
        self.intern("//", 2)?;
        self.intern("mod", 2)?;
        Ok(())
    }

    fn empty(alloc: A) -> Names<A>
        ensures { result ≡ [] }
    {
        Names {
            texts: IndexSet::new(alloc),
            entries: IndexSet::new(alloc),
            alloc,
        }
    }

    /// The symbol of this name and arity, which gets the next number where it is new. Where memory is refused, the names are as before.
    pub fn intern(&mut self, name: &str, arity: usize) -> Result<Sym, Memory>
        requires { length self.old < 4294967295 }
        ensures ok { OnOk result (self.new ≡ with_symbol self.old name.now arity) }
        ensures place { IfOk result (λ sym. symbol_of self.new name.now arity ≡ Some sym.0) }
        ensures err { OnErr result (self.new ≡ self.old) }
    {
        // A text that has no symbol yet is not seen, so the symbol may still be refused.
        let text = place_of(self.alloc, &mut self.texts, name)?;
        let (place, _) = self.entries.insert_full(StoredSymbol { text, arity })?;
        Ok(Sym(place as u32))
    }
}

impl<A: Allocator> Names<A> {
    /// How many symbols there are.
    pub fn len(&self) -> usize
        ensures { result ≡ length self.now }
    {
        self.entries.len()
    }

    /// Whether there is no symbol.
    pub fn is_empty(&self) -> bool
        ensures { IsTrue result ↔ (self.now ≡ []) }
    {
        self.len() == 0
    }

    /// Forgets all symbols but the first, of which there are `len`, and the texts that only others have.
    pub fn truncate(&mut self, len: usize)
        ensures { self.new ≡ take len self.old }
    {
        self.entries.truncate(len);
        let used = texts_used(self.entries.as_slice(), self.texts.len());
        self.texts.truncate(used);
    }

    /// The name of a symbol.
    pub fn name(&self, sym: Sym) -> &str
        requires { sym.0 < length self.now }
        ensures { result.now ≡ name_at self.now sym.0 }
    {
        self.texts[self.entries[sym.0 as usize].text].as_str()
    }

    /// With how many arguments a symbol stands.
    pub fn arity(&self, sym: Sym) -> usize
        requires { sym.0 < length self.now }
        ensures { result ≡ arity_at self.now sym.0 }
    {
        self.entries[sym.0 as usize].arity
    }

    /// The symbol of this name and arity, if there is one.
    pub fn find(&self, name: &str, arity: usize) -> Option<Sym>
        ensures symbol { option_map (λ sym. sym.0) result ≡ symbol_of self.now name.now arity }
        // Each pair stands once.
        ensures once { (k : ℕ) → slice_get self.now k ≡ Some (name.now, arity) →
            option_map (λ sym. sym.0) result ≡ Some k }
    {
        let text = self.texts.get_index_of(name)?;
        let place = self.entries.get_index_of(&StoredSymbol { text, arity })?;
        Some(Sym(place as u32))
    }
}

/// How many of the texts there are up to the last that an entry has.
fn texts_used(entries: &[StoredSymbol], texts: usize) -> usize
    requires { All (λ e. e.text < texts) entries.now }
    ensures used { All (λ e. e.text < result) entries.now }
    ensures few { result ≤ texts }
{
    let mut used = 0;
    for entry in entries {
        if entry.text >= used {
            used = entry.text + 1;
        }
    }
    used
}

/// The place of a text, which goes last where it is new.
fn place_of<A: Allocator + Copy>(
    alloc: A,
    texts: &mut IndexSet<String<A>, FoldState, A>,
    text: &str,
) -> Result<usize, Memory>
    ensures ok { OnOk result
        (texts_of texts.new.keys ≡ with_text (texts_of texts.old.keys) text.now) }
    ensures place { IfOk result
        (λ place. slice_get (texts_of texts.new.keys) place ≡ Some text.now) }
    ensures err { OnErr result (texts.new.keys ≡ texts.old.keys) }
{
    match texts.get_index_of(text) {
        Some(place) => Ok(place),
        None => {
            let (place, _) = texts.insert_full(String::from_str(alloc, text)?)?;
            Ok(place)
        }
    }
}
