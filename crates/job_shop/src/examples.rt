//! What the definitions say of small instances.
ghost use Rattle.std.specs.Prelude.{◌≡◌, codes, Ok, Some, None};
ghost use Rattle.job_shop.specs.declared.fault.JobFault.TheVariants.{NotANumber, OutOfRange, MachineTwice, TooFewNumbers, TooManyNumbers};
ghost use Rattle.job_shop.specs.Instances.{refused, shop_in};
ghost use Rattle.job_shop.specs.Scripts.{operation_on};
ghost use Rattle.job_shop.specs.Examples.{two_by_two, one_by_one};

/// Instances: line ends mean no more than other white space, leading zeros nothing.
#[tactic(auto, unfolding(crate::specs::Instances::shop_in, crate::specs::Instances::next_number, crate::specs::Instances::next_operation, crate::specs::Instances::next_job, smt_lex::specs::Bytes::is_space, smt_lex::specs::Numbers::value_from))]
pub fn worked_instances()
    ensures two { shop_in (codes "2 2\n0 3 1 2\n1 2 0 4\n") ≡ Ok two_by_two }
    ensures one { shop_in (codes " 1\t1 0\r\n5") ≡ Ok (one_by_one 5) }
    ensures nothing { shop_in (codes "1 1 0 0") ≡ Ok (one_by_one 0) }
    ensures zeros { shop_in (codes "01 1 00 0005") ≡ Ok (one_by_one 5) }
    ensures longest { shop_in (codes "1 1 0 1000000") ≡ Ok (one_by_one 1000000) }
{}

/// Texts that are none, and the first word with a fault.
#[tactic(auto, unfolding(crate::specs::Instances::shop_in, crate::specs::Instances::next_number, crate::specs::Instances::next_operation, crate::specs::Instances::next_job, smt_lex::specs::Bytes::is_space, smt_lex::specs::Numbers::value_from))]
pub fn worked_refusals()
    ensures empty { shop_in (codes "\n") ≡ refused 1 TooFewNumbers }
    ensures few { shop_in (codes "2 2 0 3 1 2 1 2") ≡ refused 9 TooFewNumbers }
    ensures twice { shop_in (codes "1 2 0 3 0 4") ≡ refused 5 MachineTwice }
    ensures twice_at_the_end { shop_in (codes "1 2 0 3 0") ≡ refused 5 MachineTwice }
    ensures heading { shop_in (codes "ft06 6 6") ≡ refused 1 NotANumber }
    ensures negative { shop_in (codes "1 1 0 -5") ≡ refused 4 NotANumber }
    ensures no_job { shop_in (codes "0 x") ≡ refused 1 OutOfRange }
    ensures many_machines { shop_in (codes "1 41") ≡ refused 2 OutOfRange }
    ensures no_machine { shop_in (codes "1 2 0 3 2 4") ≡ refused 5 OutOfRange }
    ensures long { shop_in (codes "1 1 0 1000001") ≡ refused 4 OutOfRange }
    ensures surplus { shop_in (codes "1 1 0 5 x") ≡ refused 5 TooManyNumbers }
{}

/// Which operation of a job is on a machine.
pub fn worked_operations()
    ensures first { operation_on 2 two_by_two 0 0 ≡ Some 0 }
    ensures second { operation_on 2 two_by_two 0 1 ≡ Some 1 }
    ensures none { operation_on 2 two_by_two 2 1 ≡ None }
{}
