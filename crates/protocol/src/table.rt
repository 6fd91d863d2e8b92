// The definitions are held to a run that was worked by hand.
ghost use Rattle.protocol.specs.Table.{TableFollowed};

// The definitions do what the worked table says.
pub fn table_followed_holds()
    ensures { TableFollowed }
{}
