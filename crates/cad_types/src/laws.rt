// Laws of the order of types.
ghost use Rattle.cad_types.specs.Laws.{NeedsNoStepsBetween, ResourcesStayAbove, FitsOnceThere, NilFits, BelowIsNotWrapped, LayersAreDepths, ReadingKeepsOrder, ReadingIsPlain, ResourcesStay, OrderStays};

/// The test of the order, which takes no steps between two types, tells the least relation with the rules, which is
/// transitive.
pub fn order_needs_no_steps_between()
    ensures { NeedsNoStepsBetween }
{}

/// What is above a resource type is a resource type.
pub fn resource_types_stay_above()
    ensures { ResourcesStayAbove }
{}

/// What fits a type is of it, once a transfer put optionals round it.
pub fn what_fits_is_of_the_type()
    ensures { FitsOnceThere }
{}

/// Nil is of each type that it fits, with no more optionals round it.
pub fn nil_fits_as_it_is()
    ensures { NilFits }
{}

/// A transfer puts no optional round what is of the type.
pub fn what_is_below_is_not_wrapped()
    ensures { BelowIsNotWrapped }
{}

/// Round a value that came to a place stands the larger number of optionals.
pub fn layers_are_depths()
    ensures { LayersAreDepths }
{}

/// What is read through a reference keeps the order.
pub fn reading_keeps_order()
    ensures { ReadingKeepsOrder }
{}

/// What is read through a reference is of no resource type.
pub fn reading_is_plain()
    ensures { ReadingIsPlain }
{}

/// Where declarations are added, a type that names declared types stays a resource type or stays none.
pub fn resource_types_stay()
    ensures { ResourcesStay }
{}

/// Where declarations are added, the order of types that name declared types stays.
pub fn the_order_stays()
    ensures { OrderStays }
{}
