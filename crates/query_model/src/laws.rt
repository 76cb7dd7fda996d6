ghost use Rattle.query_model.specs.Laws.{LimitsHideNoRefusal};
ghost use Rattle.query_model.specs.Worked.{WorkedRows};

/// Limits and the direction neither make nor hide a refusal.
pub fn limits_hide_no_refusal()
    ensures { LimitsHideNoRefusal }
{}

/// Some selects over small sets of points answer what was worked out by hand.
pub fn worked_rows()
    ensures { WorkedRows }
{}
