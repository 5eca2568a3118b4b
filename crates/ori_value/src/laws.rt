// What the order of values and the bytes of keys mean, as contracts of functions that do nothing.
ghost use Rattle.ori_spec_data.specs.OrderLaws.{OrderIsTotal, EqualIsSame, KeysKeepOrder, NoKeyBeginsAnother};

/// The order of values is total: antisymmetric and transitive, and only values that are the same are equal in it.
pub fn order_law()
    ensures total { OrderIsTotal }
    ensures equal { EqualIsSame }
{}

/// Key bytes of two lists of one length, of the same kinds, are ordered as the lists are, and neither begins the other.
pub fn key_law()
    ensures ordered { KeysKeepOrder }
    ensures apart { NoKeyBeginsAnother }
{}
