// What the definitions mean, as contracts of functions that do nothing.
ghost use Rattle.ori_spec_data.specs.FieldLaws.{FindsWhatIsPut, PutKeepsOthers, PutKeepsOrder, LosesWhatIsTaken};
ghost use Rattle.ori_spec_data.specs.FieldLaws.{TakingKeepsOthers, TakingKeepsOrder};
ghost use Rattle.ori_spec_data.specs.Histories.{InitialIsSound, ApplyKeepsSound, VersionPinsRecord, FreshIsNew};
ghost use Rattle.ori_spec_data.specs.Histories.{EmptyOverlayIsBase, SoundBaseIsShown};

/// The initial base is sound, and a commit of a formed transaction that a base doesn't refuse keeps it so.
pub fn sound_law()
    ensures initial { InitialIsSound }
    ensures kept { ApplyKeepsSound }
{}

/// In a legal history two bases that give a record the same version give it the same class and fields.
pub fn version_law()
    ensures { VersionPinsRecord }
{}

/// The identifier that a base gives to a new record is that of no record at an earlier place of its history.
pub fn fresh_law()
    ensures { FreshIsNew }
{}

/// The overlay of no change is the base. Over a reader that shows a sound base, a transaction shows the base's overlay.
pub fn overlay_law()
    ensures empty { EmptyOverlayIsBase }
    ensures shown { SoundBaseIsShown }
{}

/// A value that is put at a name is the one that is found there, other names have what they had, and names go on
/// rising.
pub fn put_law()
    ensures found { FindsWhatIsPut }
    ensures others { PutKeepsOthers }
    ensures rising { PutKeepsOrder }
{}

/// A name that is taken away from rising ones isn't there any more, other names have what they had, and names go on
/// rising.
pub fn without_law()
    ensures gone { LosesWhatIsTaken }
    ensures others { TakingKeepsOthers }
    ensures rising { TakingKeepsOrder }
{}
