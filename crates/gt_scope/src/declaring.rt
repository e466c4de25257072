// The declarations of the files, in the order of the texts.
ghost use Rattle.std.specs.Prelude.{◌≡◌, suc, pos, false, List, ◌∷◌, IfOk, OnOk, Some, IsTrue};
ghost use Rattle.gt_items.specs.declared.items.Enumerator.{Enumerator};
ghost use Rattle.gt_types.specs.declared.types.Scalar.TheVariants as scalar;
ghost use Rattle.gt_types.specs.declared.types.Width.TheVariants.{W4};
ghost use Rattle.gt_scope.specs.declared.types.Spelled.TheVariants.{Number};
ghost use Rattle.gt_scope.specs.declared.declaration.What.TheVariants.{Structure};
ghost use Rattle.gt_drafts.specs.Amounts.{amount_of};
ghost use Rattle.gt_scope.specs.Repeats.{AreRepeats, last_type, type_of};
ghost use Rattle.gt_scope.specs.Declarations.{nothing_declared, as_constant, constant_in, value_of_amount, with_one, up_to, declare, is_in_range, next_count, with_constant, enumerate, value_at, enumerators, declare_enum, keyword_of, declare_alias, declare_aliases, declare_structure, declare_typedef, declare_item, declare_items, with_rest, declare_file, declare_files, declarations};

use crate::constants::Constants;
use crate::declaration::{Declaration, What};
use crate::spelling::{fixed_scalar, spelling_of};
use crate::types::Spelled;
use gt_drafts::{Amount, amount};
use gt_items::{
    Alias, Enumerator, Item, Items, Keyword, Meaning, Name, RawConstant, RawEnum, RawStructure,
};
use gt_types::{Copied, Scalar, Width};
use std::alloc::{AllocError, Global};
use std::marker::Model;

// A constant of an enum lies from -2^31 to 2^32 - 1.
const LEAST_CONSTANT: i64 = -0x8000_0000;

const CONSTANTS_END: i64 = 0x1_0000_0000;

/// Declarations, of which those are marked that are typedefs of the type of the typedef before them.
#[derive(Drop)]
pub struct Declared {
    pub declarations: Vec<Declaration>,
    pub repeated: Vec<bool>,
}

/// All that the files declare, in the order of the texts: tags, constants, typedefs, roots and caches. Its only error
/// is out of memory, also where there are more files than a place of a file can tell.
pub fn declare_all(alloc: Global, files: &[Items]) -> Result<Declared, AllocError>
    ensures declared { IfOk result (λ d. d.declarations.items ≡ declarations files.now) }
    ensures repeated { IfOk result (λ d. AreRepeats d.declarations.items d.repeated.items) }
{
    let mut declaring = Declaring::new(alloc);
    declaring.declare_files(alloc, files)?;
    Ok(declaring.finish())
}

// What stands between two items, with the constants of all that is declared by their names.
#[derive(Drop)]
struct Declaring<'a> {
    done: Vec<Declaration>,
    // Which of them are typedefs of the type of the typedef before them.
    repeated: Vec<bool>,
    constants: Constants,
    // The constants `#define` of the file that stand further on.
    defines: &'a [RawConstant],
    structures: usize,
    negative: bool,
}

impl<'a> Model for Declaring<'a> {
    ghost use Rattle.std.specs.Prelude.{◌≡◌, ◌≤◌, ℕ, List, length};
    ghost use Rattle.gt_scope.specs.Declarations.{Progress, constant_in};
    ghost use Rattle.gt_scope.specs.FirstValues.{value_in};
    ghost use Rattle.gt_scope.specs.Repeats.{AreRepeats};

    ghost Value = { Progress };

    ghost view = { λ d. record { done = d.done.items; defines = d.defines.now; structures = d.structures; negative = d.negative } };

    ghost invariant = { λ d. ((word : List ℕ) → value_in d.constants word ≡ constant_in d.done.items word) × (d.structures ≤ length d.done.items) × AreRepeats d.done.items d.repeated.items };
}

impl<'a> Declaring<'a> {
    fn new(alloc: Global) -> Declaring<'a>
        ensures { result ≡ nothing_declared }
    {
        Declaring {
            done: Vec::new(alloc),
            repeated: Vec::new(alloc),
            constants: Constants::new(alloc),
            defines: &[],
            structures: 0,
            negative: false,
        }
    }

    fn finish(self) -> Declared
        ensures declared { result.declarations.items ≡ self.entry.done }
        ensures repeated { AreRepeats result.declarations.items result.repeated.items }
    {
        Declared {
            declarations: self.done,
            repeated: self.repeated,
        }
    }

    // One more declaration, which is a typedef of the type of the last one or not.
    fn with_one(
        &mut self,
        alloc: Global,
        file: u32,
        name: &Name,
        what: What,
        repeated: bool,
    ) -> Result<(), AllocError>
        requires { IsTrue repeated → type_of what ≡ last_type self.old.done }
        ensures { OnOk result (self.new ≡ with_one file name.now what self.old) }
    {
        let value = constant_of(&what);
        let copied = Name {
            word: name.word.copy(alloc)?,
            at: name.at,
        };
        self.repeated.reserve(1)?;
        self.done.push(Declaration {
            file,
            name: copied,
            what,
        })?;
        let Some(value) = value else {
            self.repeated.push_reserved(repeated);
            return Ok(());
        };
        match self.constants.add(&name.word, value) {
            Ok(()) => {
                self.repeated.push_reserved(repeated);
                Ok(())
            }
            Err(stop) => {
                self.done.pop();
                Err(stop)
            }
        }
    }

    // The constants `#define` that stand before a place of the file are declared.
    #[tactic(auto, unfolding(crate::specs::Declarations::up_to))]
    fn up_to(&mut self, alloc: Global, file: u32, at: u32) -> Result<(), AllocError>
        ensures { OnOk result (self.new ≡ up_to file at self.old) }
    {
        let mut rest = self.defines;
        while let [define, after @ ..] = rest {
            if at <= define.name.at {
                break;
            }
            self.with_one(
                alloc,
                file,
                &define.name,
                What::Constant(define.value),
                false,
            )?;
            rest = after;
        }
        self.defines = rest;
        Ok(())
    }

    // All that are left of them.
    fn with_rest(&mut self, alloc: Global, file: u32) -> Result<(), AllocError>
        ensures { OnOk result (self.new ≡ with_rest file self.old) }
    {
        let rest = self.defines;
        for define in rest {
            self.with_one(
                alloc,
                file,
                &define.name,
                What::Constant(define.value),
                false,
            )?;
        }
        self.defines = &[];
        Ok(())
    }

    // A name is declared at its place.
    fn declare(
        &mut self,
        alloc: Global,
        file: u32,
        name: &Name,
        what: What,
    ) -> Result<(), AllocError>
        ensures { OnOk result (self.new ≡ declare file name.now what self.old) }
    {
        self.up_to(alloc, file, name.at)?;
        self.with_one(alloc, file, name, what, false)
    }

    // A constant of an enum.
    fn with_constant(
        &mut self,
        alloc: Global,
        file: u32,
        name: &Name,
        value: i64,
    ) -> Result<(), AllocError>
        ensures { OnOk result (self.new ≡ with_constant file name.now value self.old) }
    {
        self.negative = self.negative || value < 0;
        self.declare(alloc, file, name, What::Constant(value))
    }

    // A constant of an enum that may have no value in range: it is then as if it were not there.
    fn enumerate(
        &mut self,
        alloc: Global,
        file: u32,
        name: &Name,
        value: Option<i64>,
    ) -> Result<(), AllocError>
        ensures { OnOk result (self.new ≡ enumerate file name.now value self.old) }
    {
        match value {
            Some(value) => {
                if is_in_range(value) {
                    self.with_constant(alloc, file, name, value)
                } else {
                    self.up_to(alloc, file, name.at)
                }
            }
            None => self.up_to(alloc, file, name.at),
        }
    }

    // The value of a text by the constants that are declared before a name. Those before it on its own header are declared.
    fn value_at(
        &mut self,
        alloc: Global,
        file: u32,
        name: &Name,
        text: &[u8],
    ) -> Result<Option<i64>, AllocError>
        ensures value { IfOk result (λ value. value ≡ value_at file name.now text.now self.old) }
        ensures declared { OnOk result (self.new ≡ up_to file name.now.at self.old) }
    {
        self.up_to(alloc, file, name.at)?;
        self.value(alloc, text)
    }

    // The value of a text by all constants so far.
    fn value(&self, alloc: Global, text: &[u8]) -> Result<Option<i64>, AllocError>
        ensures { IfOk result (λ value. value ≡ value_of_amount (amount_of (constant_in self.now.done) text.now)) }
    {
        match amount(alloc, &self.constants, text)? {
            Amount::Is(value) => Ok(Some(value)),
            Amount::Unread | Amount::NoExpression | Amount::Undefined | Amount::NoValue => Ok(None),
        }
    }

    // A piece of an enum, and the count after it.
    #[tactic(auto, unfolding(crate::specs::Declarations::enumerators))]
    fn enumerator(
        &mut self,
        alloc: Global,
        file: u32,
        count: Option<i64>,
        piece: &Enumerator,
    ) -> Result<Option<i64>, AllocError>
        ensures { IfOk result (λ next. (rest : List Enumerator) → enumerators file count (piece.now ∷ rest) self.old ≡ enumerators file next rest self.new) }
    {
        match piece {
            Enumerator::Counted(name) => {
                self.enumerate(alloc, file, name, count)?;
                Ok(next_count(count))
            }
            Enumerator::Valued { name, text } => {
                let value = self.value_at(alloc, file, name, text.as_slice())?;
                self.enumerate(alloc, file, name, value)?;
                Ok(next_count(value))
            }
            Enumerator::Undefined(_) => Ok(None),
            Enumerator::Passed => Ok(None),
        }
    }

    // The constants of an enum.
    #[tactic(auto, unfolding(crate::specs::Declarations::enumerators))]
    fn enumerators(
        &mut self,
        alloc: Global,
        file: u32,
        pieces: &[Enumerator],
    ) -> Result<(), AllocError>
        ensures { OnOk result (self.new ≡ enumerators file (Some (pos 0)) pieces.now self.old) }
    {
        let mut count = Some(0);
        for piece in pieces {
            count = self.enumerator(alloc, file, count, piece)?;
        }
        Ok(())
    }

    // An enum: its constants, and its tag.
    #[tactic(auto, unfolding(crate::specs::Declarations::declare_enum))]
    fn declare_enum(&mut self, alloc: Global, file: u32, e: &RawEnum) -> Result<(), AllocError>
        ensures { OnOk result (self.new ≡ declare_enum file e.now self.old) }
    {
        self.negative = false;
        self.enumerators(alloc, file, e.constants.as_slice())?;
        let Some(tag) = &e.tag else {
            return Ok(());
        };
        let is_signed = self.negative;
        self.declare(alloc, file, tag, What::Enum { is_signed })
    }

    // A typedef of a type, which the last typedef is of or not; and whether it is then. One of a name of the fixed table is passed over.
    #[tactic(auto, unfolding(crate::specs::Declarations::declare_alias))]
    fn declare_alias(
        &mut self,
        alloc: Global,
        file: u32,
        ty: &Spelled,
        alias: &Alias,
        repeated: bool,
    ) -> Result<bool, AllocError>
        requires { IsTrue repeated → last_type self.old.done ≡ Some ty.now }
        ensures declared { OnOk result (self.new ≡ declare_alias file ty.now alias.now self.old) }
        ensures repeated { IfOk result (λ next. IsTrue next → last_type self.new.done ≡ Some ty.now) }
    {
        if fixed_scalar(&alias.name.word).is_some() {
            return Ok(repeated);
        }
        let ty = ty.copy(alloc)?;
        let stars = alias.stars;
        let name = &alias.name;
        self.up_to(alloc, file, name.at)?;
        self.with_one(alloc, file, name, What::Typedef { ty, stars }, repeated)?;
        Ok(true)
    }

    #[tactic(auto, unfolding(crate::specs::Declarations::declare_aliases))]
    fn declare_aliases(
        &mut self,
        alloc: Global,
        file: u32,
        ty: &Spelled,
        aliases: &[Alias],
    ) -> Result<(), AllocError>
        ensures { OnOk result (self.new ≡ declare_aliases file ty.now aliases.now self.old) }
    {
        let mut repeated = false;
        for alias in aliases {
            repeated = self.declare_alias(alloc, file, ty, alias, repeated)?;
        }
        Ok(())
    }

    // A structure, and the name that it declares where it is a typedef.
    #[tactic(auto, unfolding(crate::specs::Declarations::declare_structure))]
    fn declare_structure(
        &mut self,
        alloc: Global,
        file: u32,
        s: &RawStructure,
    ) -> Result<(), AllocError>
        ensures { OnOk result (self.new ≡ declare_structure file s.now self.old) }
    {
        self.declare_tag(alloc, file, s)?;
        let Some(alias) = &s.alias else {
            return Ok(());
        };
        let ty = Spelled::Tagged {
            keyword: keyword_of(s.is_union),
            tag: s.tag.word.copy(alloc)?,
        };
        self.declare_alias(alloc, file, &ty, alias, false)?;
        Ok(())
    }

    // The tag of a structure, which is counted.
    fn declare_tag(&mut self, alloc: Global, file: u32, s: &RawStructure) -> Result<(), AllocError>
        ensures { OnOk result (self.new ≡ (let q = declare file s.now.tag (Structure s.now.is_union self.old.structures) self.old in record q { structures = suc q.structures })) }
    {
        let what = What::Structure {
            is_union: s.is_union,
            id: self.structures,
        };
        self.declare(alloc, file, &s.tag, what)?;
        self.structures += 1;
        Ok(())
    }

    // A typedef: an enum is declared first, and is a number of four bytes.
    #[tactic(auto, unfolding(crate::specs::Declarations::declare_typedef))]
    fn declare_typedef(
        &mut self,
        alloc: Global,
        file: u32,
        means: &Meaning,
        aliases: &[Alias],
    ) -> Result<(), AllocError>
        ensures { OnOk result (self.new ≡ declare_typedef file means.now aliases.now self.old) }
    {
        let ty = match means {
            Meaning::Enum(e) => {
                self.declare_enum(alloc, file, e)?;
                let signed = self.negative;
                let ty = number(signed);
                return self.declare_aliases(alloc, file, &ty, aliases);
            }
            Meaning::Type(ty) => spelling_of(alloc, ty)?,
            Meaning::Body {
                keyword,
                tag: Some(tag),
            } => Spelled::Tagged {
                keyword: *keyword,
                tag: tag.word.copy(alloc)?,
            },
            Meaning::Body { tag: None, .. } => Spelled::Sizeless,
            Meaning::Opaque => Spelled::Sizeless,
        };
        self.declare_aliases(alloc, file, &ty, aliases)
    }

    #[tactic(auto, unfolding(crate::specs::Declarations::declare_item))]
    fn declare_item(&mut self, alloc: Global, file: u32, item: &Item) -> Result<(), AllocError>
        ensures { OnOk result (self.new ≡ declare_item file item.now self.old) }
    {
        match item {
            Item::Structure(s) => self.declare_structure(alloc, file, s),
            Item::Root(root) => self.declare(alloc, file, &root.name, What::Root),
            Item::Cache(cache) => self.declare(alloc, file, &cache.name, What::Cache),
            Item::Typedef(typedef) => {
                self.declare_typedef(alloc, file, &typedef.means, typedef.names.as_slice())
            }
            Item::Enum(e) => self.declare_enum(alloc, file, e),
        }
    }

    #[tactic(auto, unfolding(crate::specs::Declarations::declare_items))]
    fn declare_items(&mut self, alloc: Global, file: u32, items: &[Item]) -> Result<(), AllocError>
        ensures { OnOk result (self.new ≡ declare_items file items.now self.old) }
    {
        for item in items {
            self.declare_item(alloc, file, item)?;
        }
        Ok(())
    }

    // A file.
    #[tactic(auto, unfolding(crate::specs::Declarations::declare_file))]
    fn declare_file(&mut self, alloc: Global, file: u32, items: &'a Items) -> Result<(), AllocError>
        ensures { OnOk result (self.new ≡ declare_file file items.now self.old) }
    {
        self.defines = items.constants.as_slice();
        self.declare_items(alloc, file, items.items.as_slice())?;
        self.with_rest(alloc, file)
    }

    // Files, which are counted from 1.
    #[tactic(auto, unfolding(crate::specs::Declarations::declare_files))]
    fn declare_files(&mut self, alloc: Global, files: &'a [Items]) -> Result<(), AllocError>
        ensures { OnOk result (self.new ≡ declare_files 1 files.now self.old) }
    {
        for (place, items) in files.iter().enumerate() {
            let Ok(file) = u32::try_from(place + 1) else {
                return Err(AllocError);
            };
            self.declare_file(alloc, file, items)?;
        }
        Ok(())
    }
}

// The value of a constant.
fn constant_of(what: &What) -> Option<i64>
    ensures { result ≡ as_constant what.now }
{
    match what {
        What::Constant(value) => Some(*value),
        _ => None,
    }
}

fn is_in_range(value: i64) -> bool
    ensures { result ≡ is_in_range value }
{
    LEAST_CONSTANT <= value && value < CONSTANTS_END
}

// The count after a value. One that leaves 64 bits is lost.
fn next_count(value: Option<i64>) -> Option<i64>
    ensures { result ≡ next_count value }
{
    value?.checked_add(1)
}

fn keyword_of(is_union: bool) -> Keyword
    ensures { result ≡ keyword_of is_union }
{
    if is_union {
        Keyword::Union
    } else {
        Keyword::Struct
    }
}

// The type of an enum.
fn number(signed: bool) -> Spelled
    ensures { result ≡ Number (scalar.Int W4 signed) false }
{
    Spelled::Number {
        scalar: Scalar::Int {
            width: Width::W4,
            signed,
        },
        is_char: false,
    }
}
