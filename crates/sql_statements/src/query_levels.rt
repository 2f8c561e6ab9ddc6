//! What stands in the parentheses of a query, and the key words that end its lists.

/// What is known of one level of a query: of what is in one pair of parentheses, or outside all.
#[derive(Clone, Copy)]
pub struct Level {
    /// Whether no word was read that says what the level is.
    pub is_fresh: bool,
    /// Whether the level is a query, so that `FROM` names relations.
    pub is_query: bool,
    /// Whether the words that come next are those of a list after `FROM`.
    pub is_in_from: bool,
    /// Whether a relation comes next.
    pub expects_relation: bool,
    /// Whether the name of a common table expression comes next.
    pub expects_expression: bool,
    /// Whether the common table expressions of the level are being read.
    pub is_in_with: bool,
    /// Whether `USING` names relations on the level, as in a `DELETE` and a `MERGE`.
    pub uses: bool,
    /// How many relations were read before the level.
    pub before: usize,
}

impl Level {
    /// A level of which nothing was read, after `before` relations.
    pub fn new(before: usize) -> Self {
        Level {
            is_fresh: true,
            is_query: false,
            is_in_from: false,
            expects_relation: false,
            expects_expression: false,
            is_in_with: false,
            uses: false,
            before,
        }
    }

    /// The level within a parenthesis that opens on this level, after `before` relations: a list of
    /// relations, where a relation was to come next.
    pub fn within(self, before: usize) -> Self {
        let mut level = Level::new(before);
        level.is_in_from = self.expects_relation;
        level.expects_relation = self.expects_relation;
        level
    }
}

/// The key words after which another query comes.
pub static JOINS_OF_QUERIES: [&str; 3] = ["union", "intersect", "except"];

/// The key words that end a list after `FROM`.
pub static ENDS_OF_FROM: [&str; 14] = [
    "where",
    "group",
    "having",
    "window",
    "order",
    "limit",
    "offset",
    "fetch",
    "union",
    "intersect",
    "except",
    "returning",
    "when",
    "set",
];

/// The key words after a relation that are not an alias of the relation.
pub static NO_ALIASES: [&str; 19] = [
    "join",
    "inner",
    "left",
    "right",
    "full",
    "cross",
    "natural",
    "on",
    "using",
    "for",
    "values",
    "default",
    "select",
    "overriding",
    "tablesample",
    "with",
    "lateral",
    "do",
    "table",
];
