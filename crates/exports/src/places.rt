// Places as loggers measure them, for a C host: a call for each unit, since an enum does not cross.
ghost use Rattle.logger.specs.declared.Logged.TheVariants.{Dots, Millimetres};
ghost use Rattle.logger.specs.Place.{PlaceContract};

use crate::handed::hand_over;
use logger::Logged;

// The place of a number of dots; 15 or 8 if it is refused. `place` is set at every return, to 0 at a refusal.
#[unsafe(no_mangle)]
pub extern "C" fn strip_place_of_dots(value: f32, place: &mut i16) -> u8
    ensures { PlaceContract (Dots value) (record { number = result; place = place.new }) }
{
    hand_over(logger::place(Logged::Dots(value)), 0, place)
}

// The place of a number of millimetres, at 8 dots each; 15 or 8 if it is refused. `place` is set at every return, to 0 at a refusal.
#[unsafe(no_mangle)]
pub extern "C" fn strip_place_of_millimetres(value: f32, place: &mut i16) -> u8
    ensures { PlaceContract (Millimetres value) (record { number = result; place = place.new }) }
{
    hand_over(logger::place(Logged::Millimetres(value)), 0, place)
}
