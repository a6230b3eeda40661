//! Relations between packages (Debian Policy 7).

ghost use Rattle.std.specs.Prelude.{◌≡◌, ◌∷◌, [], IfOk};
ghost use Rattle.std.specs.Option.{option_map};
ghost use Rattle.deb_control.specs.Relations.{holds, allows};

use crate::owned::Text;
use deb_version::{NoMemory, Version};
use std::alloc::{AllocError, Global};
use std::cmp::Ordering;
use std::marker::Model;
use std::rc::Rc;
use std::slice;

/// How a version must compare with the one in a relation (Debian Policy 7.1).
#[derive(Clone, Copy, Debug, PartialEq, Eq)]
pub enum Op {
    /// `<<`
    Below,

    /// `<=`, and the old sign `<`
    AtMost,

    /// `=`
    Equal,

    /// `>=`, and the old sign `>`
    AtLeast,

    /// `>>`
    Above,
}

/// Which signs are allowed: any in a dependency, only `=` in a provision (Debian Policy 7.5).
#[derive(Clone, Copy, Debug, PartialEq, Eq)]
pub enum Signs {
    Any,
    EqualAlone,
}

impl Signs {
    /// Whether the sign of this comparison is allowed.
    pub fn allows(self, op: Op) -> bool
        ensures { result ≡ allows self op }
    {
        match self {
            Signs::Any => true,
            Signs::EqualAlone => matches!(op, Op::Equal),
        }
    }
}

/// A relation to a version, like `(>= 1.2)` (Debian Policy 7.1).
#[derive(Drop)]
pub struct Relation {
    pub op: Op,
    pub version: Version,
}

impl Relation {
    /// Whether a version is in the relation, by the order of versions (Debian Policy 5.6.12). It allocates nothing.
    #[tactic(auto, unfolding(crate::specs::Relations::holds))]
    pub fn holds(&self, version: &Version) -> bool
        ensures { result ≡ holds self.now version.now }
    {
        let order = version.order(&self.version);
        match self.op {
            Op::Below => order.is_lt(),
            Op::AtMost => order.is_le(),
            Op::Equal => order.is_eq(),
            Op::AtLeast => order.is_ge(),
            Op::Above => order.is_gt(),
        }
    }

    /// An equal relation.
    pub fn copy(&self, alloc: Global) -> Result<Relation, NoMemory>
        ensures { IfOk result (λ r. r ≡ self.now) }
    {
        let version = self.version.copy(alloc)?;
        Ok(Relation {
            op: self.op,
            version,
        })
    }
}

/// One way to meet a clause: a package, perhaps only certain versions of it (Debian Policy 7.1).
#[derive(Drop)]
pub struct Alternative {
    pub name: Text,
    pub relation: Option<Relation>,
}

impl Alternative {
    /// An equal alternative.
    pub fn copy(&self, alloc: Global) -> Result<Alternative, NoMemory>
        ensures { IfOk result (λ a. a ≡ self.now) }
    {
        let name = self.name.copy(alloc)?;
        let relation = match &self.relation {
            Some(relation) => Some(relation.copy(alloc)?),
            None => None,
        };
        Ok(Alternative { name, relation })
    }
}

/// A package that another one provides, perhaps in a certain version (Debian Policy 7.5).
#[derive(Drop)]
pub struct Provision {
    pub name: Text,
    pub version: Option<Version>,
}

impl Provision {
    /// An equal provision.
    pub fn copy(&self, alloc: Global) -> Result<Provision, NoMemory>
        ensures { IfOk result (λ p. p ≡ self.now) }
    {
        let name = self.name.copy(alloc)?;
        let version = match &self.version {
            Some(version) => Some(version.copy(alloc)?),
            None => None,
        };
        Ok(Provision { name, version })
    }
}

/// The alternatives of a clause. Nearly every clause has one, which needs no allocation.
#[derive(Drop)]
enum Alternatives {
    One(Alternative),
    Several(Vec<Alternative>),
}

/// Alternatives; one of them must be met (Debian Policy 7.1). Contracts see the list of them.
pub struct Clause {
    alternatives: Alternatives,
}

impl Drop for Clause {
    fn drop(self) {
        let Clause { alternatives: _ } = self;
    }
}

impl Model for Clause {
    ghost use Rattle.std.specs.Prelude.{List};
    ghost use Rattle.deb_control.specs.Alternatives.{alternatives_of};
    ghost use Rattle.deb_control.specs.declared.relation.Alternative.{Alternative};

    ghost Value = { List Alternative };

    ghost view = { λ a. alternatives_of a.alternatives };
}

impl Clause {
    /// The clause of one alternative. It allocates nothing.
    pub fn one(alternative: Alternative) -> Clause
        ensures { result ≡ alternative ∷ [] }
    {
        Clause {
            alternatives: Alternatives::One(alternative),
        }
    }

    /// The clause of these alternatives. It allocates nothing, and frees the vector's unused room.
    pub fn new(alternatives: Vec<Alternative>) -> Clause
        ensures { result ≡ alternatives.items }
    {
        let mut alternatives = alternatives;
        alternatives.shrink_to_fit();
        Clause {
            alternatives: Alternatives::Several(alternatives),
        }
    }

    /// The alternatives, in written order.
    pub fn as_slice(&self) -> &[Alternative]
        ensures { result.now ≡ self.now }
    {
        match &self.alternatives {
            Alternatives::One(alternative) => slice::from_ref(alternative),
            Alternatives::Several(alternatives) => alternatives.as_slice(),
        }
    }

    /// An equal clause.
    pub fn copy(&self, alloc: Global) -> Result<Clause, NoMemory>
        ensures { IfOk result (λ c. c ≡ self.now) }
    {
        match &self.alternatives {
            Alternatives::One(alternative) => Ok(Clause::one(alternative.copy(alloc)?)),
            Alternatives::Several(alternatives) => {
                Ok(Clause::new(copy_alternatives(alloc, alternatives)?))
            }
        }
    }
}

fn copy_alternatives(
    alloc: Global,
    alternatives: &[Alternative],
) -> Result<Vec<Alternative>, NoMemory>
    ensures { IfOk result (λ v. v.items ≡ alternatives.now) }
{
    let mut copies = Vec::with_capacity(alloc, alternatives.len())?;
    'each: for alternative in alternatives {
        copies.push(alternative.copy(alloc)?)?;
    }
    Ok(copies)
}

/// Clauses that must all be met (Debian Policy 7.1, 7.2). Contracts see the list of them. Copies share them.
pub struct Clauses {
    clauses: Rc<Vec<Clause>>,
}

impl Drop for Clauses {
    fn drop(self) {
        let Clauses { clauses: _ } = self;
    }
}

impl Model for Clauses {
    ghost use Rattle.std.specs.Prelude.{List};
    ghost use Rattle.deb_control.specs.declared.relation.Alternative.{Alternative};

    ghost Value = { List (List Alternative) };

    ghost view = { λ a. a.clauses.value.items };
}

impl Clauses {
    /// These clauses. The vector's unused room is freed.
    pub fn new(alloc: Global, clauses: Vec<Clause>) -> Result<Clauses, AllocError>
        ensures { IfOk result (λ c. c ≡ clauses.items) }
    {
        let mut clauses = clauses;
        clauses.shrink_to_fit();
        let clauses = Rc::new(alloc, clauses)?;
        Ok(Clauses { clauses })
    }

    /// The clauses, in written order.
    pub fn as_slice(&self) -> &[Clause]
        ensures { result.now ≡ self.now }
    {
        self.clauses.as_ref().as_slice()
    }

    /// Equal clauses, shared with the original.
    pub fn copy(&self) -> Result<Clauses, NoMemory>
        ensures { IfOk result (λ c. c ≡ self.now) }
    {
        let clauses = self.clauses.clone()?;
        Ok(Clauses { clauses })
    }
}

/// What a package provides (Debian Policy 7.5). Contracts see the list of provisions.
pub struct Provisions {
    provisions: Vec<Provision>,
}

impl Drop for Provisions {
    fn drop(self) {
        let Provisions { provisions: _ } = self;
    }
}

impl Model for Provisions {
    ghost use Rattle.std.specs.Prelude.{List};
    ghost use Rattle.deb_control.specs.declared.relation.Provision.{Provision};

    ghost Value = { List Provision };

    ghost view = { λ a. a.provisions.items };
}

impl Provisions {
    /// These provisions. It allocates nothing, and frees the vector's unused room.
    pub fn new(provisions: Vec<Provision>) -> Provisions
        ensures { result ≡ provisions.items }
    {
        let mut provisions = provisions;
        provisions.shrink_to_fit();
        Provisions { provisions }
    }

    /// The provisions, in written order.
    pub fn as_slice(&self) -> &[Provision]
        ensures { result.now ≡ self.now }
    {
        self.provisions.as_slice()
    }

    /// The provisions as a vector. It allocates nothing.
    pub fn into_vec(self) -> Vec<Provision>
        ensures { result.items ≡ self }
    {
        let Provisions { provisions } = self;
        provisions
    }

    /// Equal provisions.
    pub fn copy(&self, alloc: Global) -> Result<Provisions, NoMemory>
        ensures { IfOk result (λ c. c ≡ self.now) }
    {
        let provisions = copy_provisions(alloc, &self.provisions)?;
        Ok(Provisions { provisions })
    }
}

fn copy_provisions(alloc: Global, provisions: &[Provision]) -> Result<Vec<Provision>, NoMemory>
    ensures { IfOk result (λ v. v.items ≡ provisions.now) }
{
    let mut copies = Vec::with_capacity(alloc, provisions.len())?;
    'each: for provision in provisions {
        copies.push(provision.copy(alloc)?)?;
    }
    Ok(copies)
}
