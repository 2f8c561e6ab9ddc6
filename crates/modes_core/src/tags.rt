ghost use Rattle.std.specs.Prelude.{◌≡◌, ◌<◌, Some, refl};
ghost use Rattle.std.proofs.Common.{rules};
ghost use Rattle.std.specs.Cmp.{partial_order_from_agreeing_total};
ghost use Rattle.std.specs.Cmp.Rules.{comparing};
ghost use Rattle.std.specs.Ordering.{nat_cmp, on, as_partial_cmp};
ghost use Rattle.std.specs.Cmp.Lexicographic.{slice_cmp, on_texts};
ghost use Rattle.modes_core.specs.Tag.{numbers_of, database_of, relation_of, own_number_of, method_of, hash_of, partition_of, index_of, is_eligible_for, is_strong_on, tag_eq};
ghost use Rattle.modes_core.specs.TagText.{tag_text};
ghost use Rattle.modes_core.specs.TagOrder.{same_tag-by_numbers};

use crate::Mode;
use std::cmp::Ordering;
use std::fmt;

/// How many partitions the lock table has (`NUM_LOCK_PARTITIONS` in lwlock.h).
pub const PARTITIONS: u32 = 16;

/// How many strong lock counters there are (`FAST_PATH_STRONG_LOCK_HASH_PARTITIONS` in lock.c).
pub const STRONG_COUNTERS: u32 = 1024;

/// Whose rules a lock follows (`LOCKMETHODID` in lock.h): the server's own locks have the default method,
/// those that applications name have the user method. Both have the same modes and conflicts; they differ in
/// what an abort leaves to the session.
#[derive(Clone, Copy, PartialEq, Eq)]
pub enum LockMethod {
    /// The lock method of the server's own locks (`DEFAULT_LOCKMETHOD`).
    Default,
    /// The lock method of locks that applications name (`USER_LOCKMETHOD`).
    User,
}

/// What a lock is on (`LOCKTAG` in lock.h). Relations and objects have the default lock method, advisory
/// locks the user method. The smallest field is first, beside the number of the variant, so that a tag takes
/// 16 bytes.
#[derive(Clone, Copy, Debug, PartialEq, Eq, Hash)]
pub enum Tag {
    /// A table or an index (`LOCKTAG_RELATION`).
    Relation {
        /// The number of the database that the relation is in.
        database: u32,
        /// The number of the relation in `database`.
        relation: u32,
    },
    /// Any other object of a catalog (`LOCKTAG_OBJECT`).
    Object {
        /// The number of a part of the object, 0 for the whole.
        sub_object: u16,
        /// The number of the database that the object is in.
        database: u32,
        /// The number of the catalog that the object is in.
        class: u32,
        /// The number of the object in the catalog `class`.
        object: u32,
    },
    /// What only the application knows, named by numbers of its own (`LOCKTAG_ADVISORY`, of
    /// `USER_LOCKMETHOD`).
    Advisory {
        /// The third number that names the lock, 1 or 2 in PostgreSQL.
        sub: u16,
        /// The number of the database in which the application takes the lock.
        database: u32,
        /// The first number by which the application names the lock.
        key1: u32,
        /// The second number by which the application names the lock.
        key2: u32,
    },
}

impl Tag {
    /// The tag of the relation numbered `relation` in `database` (`SET_LOCKTAG_RELATION` in lock.h).
    pub fn relation(database: u32, relation: u32) -> Self
        ensures { result ≡ Tag.Relation database relation }
    {
        Tag::Relation { database, relation }
    }

    /// The tag of the object numbered `object` in the catalog `class` of `database` (`SET_LOCKTAG_OBJECT` in
    /// lock.h). `sub_object` is the number of a part of the object, 0 for the whole.
    pub fn object(database: u32, class: u32, object: u32, sub_object: u16) -> Self
        ensures { result ≡ Tag.Object sub_object database class object }
    {
        Tag::Object {
            database,
            class,
            object,
            sub_object,
        }
    }

    /// The tag of an advisory lock (`SET_LOCKTAG_ADVISORY` in lock.h): `key1` and `key2` are numbers of the
    /// application's own in `database`. By `sub` PostgreSQL's functions distinguish one key of 64 bits (1)
    /// from two of 32 (2).
    pub fn advisory(database: u32, key1: u32, key2: u32, sub: u16) -> Self
        ensures { result ≡ Tag.Advisory sub database key1 key2 }
    {
        Tag::Advisory {
            database,
            key1,
            key2,
            sub,
        }
    }

    /// The number of the database that the object is in (`locktag_field1` in lock.h).
    pub fn database(self) -> u32
        ensures { result ≡ database_of self }
    {
        match self {
            Tag::Relation { database, .. }
            | Tag::Object { database, .. }
            | Tag::Advisory { database, .. } => database,
        }
    }

    /// The relation of a relation's tag, and 0 of any other object's, which has no fast-path slot (`relid` in
    /// `FastPathGrantRelationLock` of lock.c).
    pub fn relation_number(self) -> u32
        ensures { result ≡ relation_of self }
    {
        match self {
            Tag::Relation { relation, .. } => relation,
            Tag::Object { .. } | Tag::Advisory { .. } => 0,
        }
    }

    /// The lock method whose rules locks on this tag follow (`locktag_lockmethodid` in lock.h).
    pub fn method(self) -> LockMethod
        ensures { result ≡ method_of self }
    {
        match self {
            Tag::Relation { .. } | Tag::Object { .. } => LockMethod::Default,
            Tag::Advisory { .. } => LockMethod::User,
        }
    }

    /// The number in which objects of one kind differ most often: the relation's number, the object's number,
    /// or the second key of an advisory lock.
    #[inline(always)]
    fn own_number(self) -> u32
        ensures { result ≡ own_number_of self }
    {
        match self {
            Tag::Relation { relation, .. } => relation,
            Tag::Object { object, .. } => object,
            Tag::Advisory { key2, .. } => key2,
        }
    }

    /// Whether this tag is `other`: `==`, in the word that contracts use. The numbers that differ most often
    /// are compared first, without asking for the kind of both, so that a walk over tags stays short.
    #[inline(always)]
    pub fn is_same(self, other: Self) -> bool
        ensures { result ≡ tag_eq self other }
    {
        if self.own_number() != other.own_number() {
            return false;
        }
        self == other
    }

    /// The six numbers of `LOCKTAG`: field1 to field4, the type and the lock method.
    pub fn numbers(self) -> [u32; 6]
        ensures { result ≡ numbers_of self }
    {
        match self {
            Tag::Relation { database, relation } => [database, relation, 0, 0, 0, 1],
            Tag::Object {
                database,
                class,
                object,
                sub_object,
            } => [database, class, object, u32::from(sub_object), 8, 1],
            Tag::Advisory {
                database,
                key1,
                key2,
                sub,
            } => [database, key1, key2, u32::from(sub), 10, 2],
        }
    }

    /// The tag's hash, in place of `LockTagHashCode` of lock.c: the first of its six numbers, and then for
    /// each further number the hash times 31 plus that number, modulo 2^32. Each number is so multiplied by a
    /// power of 31 of its own.
    pub fn hash(self) -> u32
        ensures { result ≡ hash_of self }
    {
        let sum = match self {
            Tag::Relation { database, relation } => {
                u64::from(database) * 28_629_151 + u64::from(relation) * 923_521 + 1
            }
            Tag::Object {
                database,
                class,
                object,
                sub_object,
            } => {
                u64::from(database) * 28_629_151
                    + u64::from(class) * 923_521
                    + u64::from(object) * 29_791
                    + u64::from(sub_object) * 961
                    + (8 * 31 + 1)
            }
            Tag::Advisory {
                database,
                key1,
                key2,
                sub,
            } => {
                u64::from(database) * 28_629_151
                    + u64::from(key1) * 923_521
                    + u64::from(key2) * 29_791
                    + u64::from(sub) * 961
                    + (10 * 31 + 2)
            }
        };
        (sum % (1 << 32)) as u32
    }

    /// The partition of the lock table that the object lies in, 0 to 15 (`LockHashPartition` in lock.h).
    pub fn partition(self) -> u8
        ensures value { result ≡ partition_of self }
        ensures within { result < 16 }
    {
        (self.hash() % PARTITIONS) as u8
    }

    /// The index of the strong lock counter that counts for the object, 0 to 1023
    /// (`FastPathStrongLockHashPartition` in lock.c).
    pub fn strong_index(self) -> u16
        ensures value { result ≡ index_of self }
        ensures within { result < 1024 }
    {
        (self.hash() % STRONG_COUNTERS) as u16
    }
}

/// Tags are ordered by their six numbers (`LOCKTAG`), compared from the first number on.
impl Ord for Tag {
    ghost cmp = { on numbers_of (slice_cmp nat_cmp) };

    ghost total = { Prim.search (comparing, rules) };

    ghost matches_partial_cmp = { Prim.search (comparing, rules) };

    ghost matches_eq = { same_tag-by_numbers _ (λ _ _ _ _. refl) (λ _ _ _ _ _ _ _ _. refl)
        (λ _ _ _ _ _ _ _ _. refl) (λ _ _ _ _ _ _. refl) (λ _ _ _ _ _ _. refl) (λ _ _ _ _ _ _. refl)
        (λ _ _ _ _ _ _. refl) (λ _ _ _ _ _ _ _ _. refl) (λ _ _ _ _ _ _ _ _. refl) };

    fn cmp(&self, other: &Tag) -> Ordering {
        self.numbers().cmp(&other.numbers())
    }
}

impl PartialOrd for Tag {
    ghost partial_cmp = { as_partial_cmp (on numbers_of (slice_cmp nat_cmp)) };

    ghost laws = { partial_order_from_agreeing_total (on numbers_of (slice_cmp nat_cmp)) (on_texts numbers_of)
        (λ _ _. refl)
        (same_tag-by_numbers _ (λ _ _ _ _. refl) (λ _ _ _ _ _ _ _ _. refl)
        (λ _ _ _ _ _ _ _ _. refl) (λ _ _ _ _ _ _. refl) (λ _ _ _ _ _ _. refl) (λ _ _ _ _ _ _. refl)
        (λ _ _ _ _ _ _. refl) (λ _ _ _ _ _ _ _ _. refl) (λ _ _ _ _ _ _ _ _. refl)) };

    fn partial_cmp(&self, other: &Tag) -> Option<Ordering> {
        Some(self.cmp(other))
    }
}

/// A tag is written as scripts write it: `DB/REL`, `DB/CLASS/OBJ/SUB`, or `adv/DB/K1/K2/SUB`.
impl fmt::Display for Tag {
    ghost output = { λ tag. Some (tag_text tag) };

    fn fmt<W: fmt::Write>(&self, f: &mut fmt::Formatter<W>) -> fmt::Result {
        match self {
            Tag::Relation { database, relation } => write!(f, "{database}/{relation}"),
            Tag::Object {
                database,
                class,
                object,
                sub_object,
            } => write!(f, "{database}/{class}/{object}/{sub_object}"),
            Tag::Advisory {
                database,
                key1,
                key2,
                sub,
            } => write!(f, "adv/{database}/{key1}/{key2}/{sub}"),
        }
    }
}

/// Whether a session of `database` may take `mode` on `tag` by the fast path (`EligibleForRelationFastPath`
/// in lock.c): the tag is a relation of that database, which is not 0, and the mode is 1 to 3, no two of
/// which conflict.
pub fn is_eligible(database: u32, tag: Tag, mode: Mode) -> bool
    ensures { result ≡ is_eligible_for database tag mode }
{
    match tag {
        Tag::Relation { database: own, .. } => own == database && own != 0 && mode.number() <= 3,
        Tag::Object { .. } | Tag::Advisory { .. } => false,
    }
}

/// Whether `mode` on `tag` conflicts with locks that may be in fast-path slots
/// (`ConflictsWithRelationFastPath` in lock.c): the tag is a relation of a database other than 0, and the
/// mode is 5 or more.
pub fn is_strong(tag: Tag, mode: Mode) -> bool
    ensures { result ≡ is_strong_on tag mode }
{
    match tag {
        Tag::Relation { database, .. } => database != 0 && mode.number() >= 5,
        Tag::Object { .. } | Tag::Advisory { .. } => false,
    }
}
