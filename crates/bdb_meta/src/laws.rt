ghost use Rattle.bdb_meta.specs.ReadBack.{BtreeReadsBack, QueueReadsBack, TableReadsBack};

/// What a writing call writes is read back as the same fields, where no row of the fault table holds
/// for it.
pub fn reads_back()
    ensures btree { BtreeReadsBack }
    ensures table { TableReadsBack }
    ensures queue { QueueReadsBack }
{}
