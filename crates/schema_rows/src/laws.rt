//! Laws of the tables, on functions that do nothing.

ghost use Rattle.std.specs.Prelude.{map};
ghost use Rattle.sequences.specs.Pairs.{AreDistinct};
ghost use Rattle.schema_rows.specs.declared.schemas.Schema.{Schema};
ghost use Rattle.schema_rows.specs.Rows.{Row};
ghost use Rattle.schema_rows.specs.Schemas.{rows_of};

/// Law: no table has two rows of one name. It does nothing.
pub fn names_are_distinct()
    ensures { (schema : Schema) → AreDistinct (map (λ (row : Row). row.name) (rows_of schema)) }
{}
