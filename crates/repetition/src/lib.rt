// The meaning of the list and its laws. No function: specs/ says what is right, proofs/ has the laws.
//
// law                                                            name                                         in proofs/
// 0  test and fact of a repetition are the same                  stands_true, true_stands                     Repetitions
// 1  a block's starts are consecutive                            block_starts, start_in_block                 Listing
// 2  one part, one class                                         in_part, right_or_left                       Listing, Cutting
//    one listed block, and nothing else is listed                list_count, in_block, listed_repetition      Listing
//    empty exactly when there is none                            empty_list, free_text                        Listing
// 3  the repetition lemma: blocks read from the tables           block_read, class_read                       Reading
// 4  match lengths: what they are, and the only ones             matched_is, matched_unique                   Matching
//    the counting rule's free case and scanning case             free_match, scan_from                        Walking
// 5  a walk costs at most 2 for each position                    walk_cost, table_cost_bound                  Walking
//    comparisons at most 4nD, blocks at most nD                  comparisons_bound, blocks_bound              Bounds
//    D is the smallest with 2 to the power D at least n          depth_enough, depth_least, depth_greatest    Depth
// 6  enough fuel is enough; a part unrolled; induction           fuel_enough, parts_unroll, parts_ind         Cutting
// 7  the longest: greatest half, met first, there if any is      longest_is, longest_first, longest_there     Longest
// 8  blocks written are read back, the rest is as before         list_read, leading_read, beyond_kept         Reports
//    the starred examples of document 01                         starred_examples                             Examples
#![tactic(auto)]
