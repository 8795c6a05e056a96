//! Whether a schema is that of a desk.
ghost use Rattle.std.specs.{Bool.Decides, List.AllByRecursion, Prelude.◌≡◌, Prelude.⊤};
ghost use Rattle.review_sql_tables.specs.Plain.{IsPlainColumn, IsPlainTable, IsSameForm, IsPlainForm, IsPlainSchema};

use sqlite::types::{Bytes, Value};
use sqlite_items::Items;
use sqlite_schema::schema::{Column, Index, Schema, Table};
use sqlite_value::keys::Order;

// A part of a schema that is compared with a plain one, as those of a desk are.
trait Same {
    ghost IsPlain: { Self → Type 0 };

    fn is_same(&self, plain: &Self) -> bool
        ensures { Decides result ((self.now ≡ plain.now) × IsPlain plain.now) };
}

fn are_same<T: Same>(all: &[T], plain: &[T]) -> bool
    ensures { Decides result ((all.now ≡ plain.now) × AllByRecursion T.IsPlain plain.now) }
{
    let [first, rest @ ..] = all else {
        return plain.is_empty();
    };
    let [one, others @ ..] = plain else {
        return false;
    };
    first.is_same(one) && are_same(rest, others)
}

fn is_same_name(name: &Bytes, other: &Bytes) -> bool
    ensures { Decides result (name.now ≡ other.now) }
{
    name.as_slice() == other.as_slice()
}

fn are_same_places(places: &Items<usize>, others: &Items<usize>) -> bool
    ensures { Decides result (places.now ≡ others.now) }
{
    places.as_slice() == others.as_slice()
}

impl Same for Items<usize> {
    ghost IsPlain = { λ _. ⊤ };

    fn is_same(&self, plain: &Items<usize>) -> bool {
        are_same_places(self, plain)
    }
}

impl Same for Column {
    ghost IsPlain = { IsPlainColumn };

    fn is_same(&self, plain: &Column) -> bool {
        if !matches!(&self.default, Value::Null) || !matches!(&plain.default, Value::Null) {
            return false;
        }
        is_same_name(&self.name, &plain.name)
            && self.kind == plain.kind
            && self.is_strict == plain.is_strict
            && self.not_null == plain.not_null
            && self.collation == plain.collation
    }
}

impl Same for Order {
    ghost IsPlain = { λ _. ⊤ };

    fn is_same(&self, plain: &Order) -> bool {
        self.digits == plain.digits
    }
}

impl Same for Index {
    ghost IsPlain = { λ _. ⊤ };

    fn is_same(&self, plain: &Index) -> bool {
        is_same_name(&self.name, &plain.name)
            && self.tree == plain.tree
            && self.table == plain.table
            && are_same_places(&self.columns, &plain.columns)
            && self.order.digits == plain.order.digits
            && self.is_unique == plain.is_unique
    }
}

// Whether a table has no CHECK, no foreign key and no default that is computed.
fn is_plain(table: &Table) -> bool
    ensures { Decides result (IsPlainTable table.now) }
{
    table.checks.roots.is_empty()
        && table.references.is_empty()
        && table.computed.is_empty()
        && table.stamps.places.is_empty()
        && table.stamps.terms.roots.is_empty()
        && table.stamps.formats.is_empty()
}

// Whether two tables have the same name, tree, columns and keys.
fn is_same_form(table: &Table, other: &Table) -> bool
    ensures { Decides result (IsSameForm table.now other.now) }
{
    is_same_name(&table.name, &other.name)
        && table.tree == other.tree
        && are_same(table.columns.as_slice(), other.columns.as_slice())
        && table.key == other.key
        && are_same_places(&table.primary, &other.primary)
        && are_same(table.uniques.as_slice(), other.uniques.as_slice())
        && are_same(table.orders.as_slice(), other.orders.as_slice())
        && table.is_counted == other.is_counted
}

impl Same for Table {
    ghost IsPlain = { IsPlainForm };

    fn is_same(&self, plain: &Table) -> bool {
        is_plain(self) && is_plain(plain) && is_same_form(self, plain)
    }
}

/// Whether a schema is that of this plain one.
pub fn is_same_schema(schema: &Schema, plain: &Schema) -> bool
    ensures { Decides result ((schema.now ≡ plain.now) × IsPlainSchema plain.now) }
{
    schema.views.is_empty()
        && plain.views.is_empty()
        && are_same(schema.tables.as_slice(), plain.tables.as_slice())
        && are_same(schema.indexes.as_slice(), plain.indexes.as_slice())
}
