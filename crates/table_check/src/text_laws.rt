ghost use Rattle.table_check.specs.TextLaws.{TablesAreReadBack, TextsTellTables};

/// A law: what a text tells of an image is a table of that image, whose text it is.
pub fn texts_tell_tables()
    ensures { TextsTellTables }
{}

/// A law: the text of a table of an image tells that table.
pub fn tables_are_read_back()
    ensures { TablesAreReadBack }
{}
