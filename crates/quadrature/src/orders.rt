// Which rule a quadrature uses: by the wish, and by how many points it may have.
ghost use Rattle.std.specs.Prelude.{◌≡◌, ◌≤◌};
ghost use Rattle.quadrature.specs.Orders.{size_of, decline_number, order_of, wished, within_cap, next_lower, capped_from, product_order, joint_order};

// The orders that have a rule.
#[derive(Clone, Copy, Debug, PartialEq, Eq)]
pub enum Order {
    Three,
    Five,
    Seven,
    Nine,
    Eleven,
}

// Why a quadrature declines, in the order in which the places are met: the wish is below 2; the effects
// are none or too many for the joint rule; the cap left no order; then, in the step itself, a diagonal
// entry, a pivot of the inverse, a pivot of its factor, a log sum.
#[derive(Clone, Copy, Debug, PartialEq, Eq)]
pub enum Decline {
    Wish,
    Effects,
    Cap,
    Diagonal,
    Inverse,
    Factor,
    Sum,
}

// How many nodes the rule has.
#[tactic(auto, unfolding(crate::specs::Orders::size_of))]
pub fn order_size(order: Order) -> usize
    ensures { result ≡ size_of order }
{
    match order {
        Order::Three => 3,
        Order::Five => 5,
        Order::Seven => 7,
        Order::Nine => 9,
        Order::Eleven => 11,
    }
}

// The number under which it is told why a quadrature declined.
pub fn decline_number(decline: Decline) -> usize
    ensures { result ≡ decline_number decline }
{
    match decline {
        Decline::Wish => 1,
        Decline::Effects => 2,
        Decline::Cap => 3,
        Decline::Diagonal => 4,
        Decline::Inverse => 5,
        Decline::Factor => 5,
        Decline::Sum => 6,
    }
}

// The order of this number of nodes.
#[tactic(auto, unfolding(crate::specs::Orders::order_of))]
pub fn order_of(number: usize) -> Option<Order>
    ensures { result ≡ order_of number }
{
    match number {
        3 => Some(Order::Three),
        5 => Some(Order::Five),
        7 => Some(Order::Seven),
        9 => Some(Order::Nine),
        11 => Some(Order::Eleven),
        _ => None,
    }
}

// The first order not below the wish; above 11 it is 11, below 2 there is none.
#[tactic(auto, unfolding(crate::specs::Orders::wished, crate::specs::Orders::first_order))]
pub fn resolve_gh_order(wish: usize) -> Result<Order, Decline>
    ensures { result ≡ wished wish }
{
    match wish {
        0..=1 => Err(Decline::Wish),
        2..=3 => Ok(Order::Three),
        4..=5 => Ok(Order::Five),
        6..=7 => Ok(Order::Seven),
        8..=9 => Ok(Order::Nine),
        _ => Ok(Order::Eleven),
    }
}

// Whether size^dims is at most the cap. The power is never formed past the cap, so it ends after a few
// turns however many the dims are.
fn within_cap(size: usize, dims: usize, cap: usize) -> bool
    requires { (3 ≤ size) × (size ≤ 11) × (cap ≤ 7000) }
    ensures { result ≡ within_cap size dims cap }
{
    let mut power = 1;
    for _turn in 0..dims {
        if cap < power {
            return false;
        }
        power *= size;
    }
    power <= cap
}

// The next order down, if there is one.
#[tactic(auto, unfolding(crate::specs::Orders::next_lower))]
fn next_lower(order: Order) -> Option<Order>
    ensures { result ≡ next_lower order }
{
    match order {
        Order::Three => None,
        Order::Five => Some(Order::Three),
        Order::Seven => Some(Order::Five),
        Order::Nine => Some(Order::Seven),
        Order::Eleven => Some(Order::Nine),
    }
}

// The first order from this one down with order^dims at most the cap.
fn capped(order: Order, dims: usize, cap: usize) -> Result<Order, Decline>
    requires { cap ≤ 7000 }
    ensures { result ≡ capped_from cap dims order }
{
    let mut at = order;
    // Down from order to order, not along an index.
    while !within_cap(order_size(at), dims, cap) {
        at = next_lower(at).ok_or(Decline::Cap)?;
    }
    Ok(at)
}

// One block of k effects a group: k = 1 keeps the order, else order^k is at most 400.
#[tactic(auto, unfolding(crate::specs::Orders::product_order, crate::specs::Orders::product_capped))]
pub fn resolve_gh_order_product(wish: usize, k: usize) -> Result<Order, Decline>
    ensures { result ≡ product_order wish k }
{
    let order = resolve_gh_order(wish)?;
    if k == 1 {
        Ok(order)
    } else {
        capped(order, k, 400)
    }
}

// All q effects at once: none for no effect or more than 8, else order^q is at most 7,000.
#[tactic(auto, unfolding(crate::specs::Orders::joint_order, crate::specs::Orders::joint_capped))]
pub fn resolve_gh_order_joint(wish: usize, q: usize) -> Result<Order, Decline>
    ensures { result ≡ joint_order wish q }
{
    let order = resolve_gh_order(wish)?;
    if q == 0 || 8 < q {
        return Err(Decline::Effects);
    }
    capped(order, q, 7000)
}
