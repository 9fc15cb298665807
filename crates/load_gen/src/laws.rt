ghost use Rattle.sp_model.specs.Sayable.{KeepsForms};
ghost use Rattle.load_gen.specs.Table.{DeclaresRows, KeysFilter};
ghost use Rattle.load_gen.specs.Generated.{generated};

/// The book can be said by lines: a child in memory may answer from it.
pub fn generated_keeps_forms()
    ensures { KeepsForms generated }
{}

/// Each connection declares the table of rows.
pub fn generated_declares_rows()
    ensures { DeclaresRows }
{}

/// Keys that are declared to filter only do so: it has none.
pub fn generated_keys_filter()
    ensures { KeysFilter }
{}
