// Laws of well formed lists, each as the contract of an empty function.
ghost use Rattle.edl_list.specs.Laws.{HaveOrder, HaveTimes, HaveCounts, HaveSpeeds, HaveOneSpeed, HaveColumns};

/// Law: of two events of a well formed list that are on one channel, the later begins at the end of
/// the earlier or behind it. It does nothing.
pub fn channel_order()
    ensures { HaveOrder }
{}

/// Law: where the rate has timecode, each frame number of a day, and each count of frames up to a
/// day, is a time. It does nothing.
pub fn frames_as_times()
    ensures { HaveTimes }
{}

/// Law: a second has from 1 to 60 frame numbers, and the speed of a side is at most a thousand
/// times the rate's own. It does nothing.
pub fn side_speeds()
    ensures counts { HaveCounts }
    ensures speeds { HaveSpeeds }
{}

/// Law: two speeds in tenths that give the same millionths are equal. It does nothing.
pub fn equal_speeds()
    ensures { HaveOneSpeed }
{}

/// Law: the reels of a well formed list stand in the columns of the wide layout. It does nothing.
pub fn wide_columns()
    ensures { HaveColumns }
{}
