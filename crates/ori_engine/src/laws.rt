// What the definitions mean, as contracts of functions that do nothing.
ghost use Rattle.ori_paged.specs.PageRows.{OpensToOne};

/// Files open to at most one base.
pub fn one_base_law()
    ensures { OpensToOne }
{}
