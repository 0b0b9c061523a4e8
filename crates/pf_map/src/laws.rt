//! What follows from the definitions that contracts cite: functions that do nothing, whose contracts are the laws.
ghost use Rattle.pf_map.specs.{Laws.{ReplacesTheKey, StaysSorted, OneList, StaysMap}, ListMaps.{ReplacesLists, StaysListMap, OneListMap}};

use crate::entry::Content;
use pf_key::Key;

/// In a map a key that was replaced has the new value, or none, all else stays, and the keys stay in order. A map is what is
/// read of it.
pub fn maps_are_replaced<K: Key, V: Content>()
    ensures key { ReplacesTheKey V K.order }
    ensures sorted { StaysSorted V K.order }
    ensures one { OneList V K.order }
    ensures map { StaysMap K.order V.kept }
{}

/// In a map of lists in which an empty one has no entry, each key has the last of the lists that were put at it, or else its
/// own; what is empty isn't there. Two such maps of which the same is read at each key are one.
pub fn lists_are_replaced<K: Key, X>()
    ensures lists { ReplacesLists X K.order }
    ensures map { StaysListMap X K.order }
    ensures one { OneListMap X K.order }
{}
