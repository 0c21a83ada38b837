//! What a document says.

use rw_docspan::{Cospan, Span};
use rw_rule::{Rule, Watch};
use rw_schema::Schema;
use rw_table::Table;

/// What a document without a fault says: a schema, an instance of it, rules and watches over it, and a span and a cospan
/// of instances, where they are written.
#[derive(Drop)]
pub struct Document {
    pub schema: Schema,
    pub table: Table,
    pub rules: Vec<Rule>,
    pub watches: Vec<Watch>,
    pub span: Option<Span>,
    pub cospan: Option<Cospan>,
}
